//! Why nothing was printed.
ghost use Rattle.std.specs.Prelude.{◌≡◌};
ghost use Rattle.printing.specs.Output.{print_number};

use std::error::Error;
use std::fmt;

#[derive(Clone, Copy, Debug, PartialEq, Eq)]
pub enum PrintFault {
    /// There are too few bytes for the text.
    OutputShort,
}

impl fmt::Display for PrintFault {
    fn fmt<W: fmt::Write>(&self, f: &mut fmt::Formatter<W>) -> fmt::Result {
        match self {
            PrintFault::OutputShort => f.write_str("too few bytes for the text"),
        }
    }
}

impl Error for PrintFault {}

impl PrintFault {
    /// The refusal's number.
    // Stays: `fault.number()` says what it gives, as at the other faults, and `u32::from` would not.
    pub fn number(self) -> u32
        ensures { result ≡ print_number self }
    {
        match self {
            PrintFault::OutputShort => 26,
        }
    }
}
