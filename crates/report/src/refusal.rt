//! A refusal as it is told.
ghost use Rattle.std.specs.Prelude.{◌≡◌};

use script::statement::ScriptFault;
use syntax::read::ReadFault;

// Its number, and its place if it has one.
#[derive(Clone, Copy, Debug, PartialEq, Eq)]
pub(crate) struct Refusal {
    pub(crate) number: u32,
    pub(crate) place: Option<usize>,
}

// Stays: two enums of faults with numbers of their own; a trait over both would be the same two impls.
impl From<ScriptFault> for Refusal {
    ghost use Rattle.report.specs.Refusal.{of_tokens};

    ghost from_gives = { λ fault refusal. refusal ≡ of_tokens fault };

    fn from(fault: ScriptFault) -> Refusal {
        Refusal {
            number: fault.number(),
            place: Some(fault.place()),
        }
    }
}

impl From<ReadFault> for Refusal {
    ghost use Rattle.report.specs.Refusal.{of_reading};

    ghost from_gives = { λ fault refusal. refusal ≡ of_reading fault };

    fn from(fault: ReadFault) -> Refusal {
        Refusal {
            number: fault.number(),
            place: fault.place(),
        }
    }
}
