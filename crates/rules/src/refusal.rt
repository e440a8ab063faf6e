//! Why and where a judgement is refused.
ghost use Rattle.std.specs.Prelude.{◌≡◌};
ghost use Rattle.rules.specs.Numbers.{number};

// Why: no rule infers a type of this form; a type or a form is of another form than the rule names;
// two types differ; a type names a binder that is left behind; the system names no sort.
#[derive(Clone, Copy, PartialEq, Eq, Debug)]
pub enum Reason {
    NoRule,
    OtherForm,
    Unequal,
    Escapes,
    NoSort,
}

// The part of the checker in which a refusal arises.
#[derive(Clone, Copy, PartialEq, Eq, Debug)]
pub enum Layer {
    Reading,
    Typing,
    Normalising,
    Book,
}

// Why, at which place of the script, and in which layer.
#[derive(Clone, Copy, PartialEq, Eq, Debug)]
pub struct Refusal {
    pub reason: Reason,
    pub place: usize,
    pub layer: Layer,
}

impl Reason {
    // The number by which a refusal is told.
    // Stays: `reason.number()` says what it gives, and `u8::from(reason)` would not.
    pub fn number(self) -> u8
        ensures { result ≡ number self }
    {
        match self {
            Reason::NoRule => 7,
            Reason::OtherForm => 8,
            Reason::Unequal => 9,
            Reason::Escapes => 10,
            Reason::NoSort => 11,
        }
    }
}
