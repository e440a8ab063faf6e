//! A sink that writes: each text goes into the caller's bytes, right after the one before it.
ghost use Rattle.std.specs.Prelude.{◌≤◌, length};

use crate::fault::PrintFault;
use crate::sink::Sink;

// The caller's bytes, and the place past what was written.
#[derive(Drop)]
pub(crate) struct Page<'a> {
    pub(crate) out: &'a mut [u8],
    pub(crate) at: usize,
    ghost inside: { at ≤ length out.now },
}

impl Sink for Page<'_> {
    ghost use Rattle.printing.specs.Page.{Writes, writes_parts};

    ghost put_gives = { Writes };

    ghost joins = { writes_parts };

    fn put(&mut self, text: &[u8]) -> Result<(), PrintFault> {
        if text.len() > self.out.len() - self.at {
            return Err(PrintFault::OutputShort);
        }
        let end = self.at + text.len();
        self.out[self.at..end].copy_from_slice(text);
        self.at = end;
        Ok(())
    }
}
