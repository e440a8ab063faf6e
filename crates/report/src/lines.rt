//! Lines of a key and a value.
ghost use Rattle.std.specs.Prelude.{codes, decimal, OnOk};
ghost use Rattle.report.specs.Lines.{Adds, line, place_line, refusal_lines};

use crate::refusal::Refusal;
use std::alloc::AllocError;

/// The longest script that the programs take.
pub const MOST_BYTES: usize = 1_000_000;

/// Lines of a key and a value, one after another.
#[derive(Drop)]
pub struct Lines {
    pub bytes: Vec<u8>,
}

impl Lines {
    /// A key, a value and the line's end.
    pub fn text(&mut self, key: &[u8], value: &[u8]) -> Result<(), AllocError>
        ensures { OnOk result (Adds self.old (line key.now value.now) self.new) }
    {
        self.bytes.extend_from_slice(key)?;
        self.bytes.extend_from_slice(value)?;
        self.end()
    }

    /// A key, a number in decimal digits and the line's end.
    pub fn number(&mut self, key: &[u8], value: usize) -> Result<(), AllocError>
        ensures { OnOk result (Adds self.old (line key.now (decimal value)) self.new) }
    {
        self.bytes.extend_from_slice(key)?;
        self.digits(value)?;
        self.end()
    }

    // The number's digits.
    fn digits(&mut self, value: usize) -> Result<(), AllocError>
        ensures { OnOk result (Adds self.old (decimal value) self.new) }
    {
        if value >= 10 {
            self.digits(value / 10)?;
        }
        self.bytes.push(b'0' + (value % 10) as u8)?;
        Ok(())
    }

    // The line's end.
    fn end(&mut self) -> Result<(), AllocError>
        ensures { OnOk result (Adds self.old (codes "\n") self.new) }
    {
        self.bytes.push(b'\n')?;
        Ok(())
    }

    // A key and a place, or a dash where there is none.
    fn place(&mut self, key: &[u8], place: Option<usize>) -> Result<(), AllocError>
        ensures { OnOk result (Adds self.old (place_line key.now place) self.new) }
    {
        match place {
            Some(at) => self.number(key, at),
            None => self.text(key, b"-"),
        }
    }

    // The answer, 0 or the number of a refusal, and under the key its place.
    pub(crate) fn answer(&mut self, key: &[u8], refusal: Option<Refusal>) -> Result<(), AllocError>
        ensures { OnOk result (Adds self.old (refusal_lines key.now refusal) self.new) }
    {
        match refusal {
            Some(Refusal { number, place }) => {
                self.number(b"answer=", number as usize)?;
                self.place(key, place)
            }
            None => {
                self.text(b"answer=", b"0")?;
                self.place(key, None)
            }
        }
    }
}
