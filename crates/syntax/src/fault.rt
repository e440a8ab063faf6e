//! Why a statement cannot be read.
ghost use Rattle.std.specs.Prelude.{◌≡◌};
ghost use Rattle.syntax.specs.Faults.{fault_number, fault_place};

// Stays: no text, as at `ScriptFault` and `ReadFault`: a refusal is told by its number and place.
/// A token that does not fit, a name that nothing has, a name that is entered already; each with
/// its place.
#[derive(Clone, Copy, PartialEq, Eq, Debug)]
pub enum SyntaxFault {
    Misfit(usize),
    UnknownName(usize),
    KnownName(usize),
}

impl SyntaxFault {
    /// The refusal's number.
    // Stays: a report prints the number, which `fault.number()` says and `u32::from(fault)` would not.
    pub fn number(self) -> u32
        ensures { result ≡ fault_number self }
    {
        match self {
            SyntaxFault::Misfit(_) => 3,
            SyntaxFault::UnknownName(_) => 4,
            SyntaxFault::KnownName(_) => 5,
        }
    }

    /// Where it lies.
    pub fn place(self) -> usize
        ensures { result ≡ fault_place self }
    {
        match self {
            SyntaxFault::Misfit(at) | SyntaxFault::UnknownName(at) | SyntaxFault::KnownName(at) =>
                at,
        }
    }
}
