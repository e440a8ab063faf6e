//! Why typing stops.
ghost use Rattle.std.specs.Prelude.{◌≡◌};
ghost use Rattle.rules.specs.Derivation.{refusal};
ghost use Rattle.kernel.specs.declared.fault.Fault.TheVariants as fault;
ghost use Rattle.kernel.specs.Faults.{passed, typing};

use normal::halt::Halt;
use rules::refusal::{Layer, Reason, Refusal};
use term::faults::Spent;

// The budget does not suffice, or a rule refuses.
// Stays: apart from `Halt`, whose type shows that a normal form is refused for one reason only.
#[derive(Clone, Copy, Debug, PartialEq, Eq)]
pub enum Fault {
    Spent,
    Refused(Refusal),
}

impl From<Spent> for Fault {
    ghost from_gives = { λ _ r. r ≡ fault.Spent };

    fn from(_spent: Spent) -> Fault {
        Fault::Spent
    }
}

impl From<Halt> for Fault {
    ghost from_gives = { λ h r. r ≡ passed h };

    fn from(halt: Halt) -> Fault {
        match halt {
            Halt::Spent => Fault::Spent,
            Halt::Stuck(place) => Fault::Refused(Refusal {
                reason: Reason::OtherForm,
                place,
                layer: Layer::Normalising,
            }),
        }
    }
}

// A refusal of the term at `place`, in typing.
pub(crate) fn refused(reason: Reason, place: usize) -> Fault
    ensures { result ≡ fault.Refused (refusal reason (typing place)) }
{
    Fault::Refused(Refusal {
        reason,
        place,
        layer: Layer::Typing,
    })
}
