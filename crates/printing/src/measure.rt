//! A sink that only measures: it keeps no text, and counts the room that is left.
ghost use Rattle.std.specs.Prelude.{◌≡◌};

use crate::fault::PrintFault;
use crate::sink::Sink;

// The room for so many bytes more.
#[derive(Clone, Copy)]
pub(crate) struct Measure {
    pub(crate) room: usize,
}

impl Sink for Measure {
    ghost use Rattle.printing.specs.Measure.{Measures, measures_parts};

    ghost put_gives = { Measures };

    ghost joins = { measures_parts };

    fn put(&mut self, text: &[u8]) -> Result<(), PrintFault> {
        if text.len() > self.room {
            return Err(PrintFault::OutputShort);
        }
        self.room -= text.len();
        Ok(())
    }
}
