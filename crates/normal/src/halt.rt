//! Why normalising stops.
ghost use Rattle.normal.specs.declared.halt.Halt.TheVariants as halt;
ghost use Rattle.std.specs.Prelude.{◌≡◌};

use term::faults::Spent;

// The budget does not suffice, or no rule fits, for the term at a place.
#[derive(Clone, Copy, Debug, PartialEq, Eq)]
pub enum Halt {
    Spent,
    Stuck(usize),
}

impl From<Spent> for Halt {
    ghost from_gives = { λ _ r. r ≡ halt.Spent };

    fn from(_spent: Spent) -> Halt {
        Halt::Spent
    }
}
