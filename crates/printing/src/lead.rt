//! What leads to a part of a form.
ghost use Rattle.std.specs.Prelude.{◌≤◌};

// How it opens, the names of so many binders, what follows them, and how many more binders the
// part stands under.
#[derive(Clone, Copy)]
pub(crate) struct Lead<'a> {
    pub(crate) opening: &'a [u8],
    pub(crate) names: u64,
    pub(crate) bound: &'a [u8],
    pub(crate) under: u64,
    ghost few: { under ≤ 2 },
}
