//! What the arena answers where it cannot do what is asked.
ghost use Rattle.term.specs.declared.faults.Unmade.TheVariants as unmade;
ghost use Rattle.std.specs.Prelude.{◌≡◌};

use std::alloc::AllocError;
use std::error::Error;
use std::fmt;

// The budget does not suffice.
#[derive(Clone, Copy, Debug, PartialEq, Eq)]
pub struct Spent;

// Stays: the errors' texts, and the conversion below, are by hand, so that `term` stands on `std` alone.
impl fmt::Display for Spent {
    fn fmt<W: fmt::Write>(&self, f: &mut fmt::Formatter<W>) -> fmt::Result {
        write!(f, "too little budget")
    }
}

impl Error for Spent {}

// There are too few free cells.
#[derive(Clone, Copy, Debug, PartialEq, Eq)]
pub struct Full;

impl fmt::Display for Full {
    fn fmt<W: fmt::Write>(&self, f: &mut fmt::Formatter<W>) -> fmt::Result {
        write!(f, "too few cells")
    }
}

impl Error for Full {}

// Why no arena was made.
#[derive(Clone, Copy, Debug, PartialEq, Eq)]
pub enum Unmade {
    // The size is not from 1 to 1,000,000.
    Size,
    // There is no memory for it.
    Memory,
}

impl fmt::Display for Unmade {
    fn fmt<W: fmt::Write>(&self, f: &mut fmt::Formatter<W>) -> fmt::Result {
        match self {
            Self::Size => write!(f, "an arena has from 1 to 1,000,000 cells"),
            Self::Memory => write!(f, "no memory"),
        }
    }
}

impl Error for Unmade {}

impl From<AllocError> for Unmade {
    ghost from_gives = { λ _ r. r ≡ unmade.Memory };

    fn from(_error: AllocError) -> Unmade {
        Unmade::Memory
    }
}
