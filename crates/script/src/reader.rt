//! The reader: a borrowed script and the place reached, which never passes the script's end.
ghost use Rattle.std.specs.Prelude.{◌≤◌, length};

pub mod scan;
pub mod statements;

#[derive(Drop)]
pub struct Reader<'a> {
    script: &'a [u8],
    at: usize,
    ghost inside: { at ≤ length script.now },
}
