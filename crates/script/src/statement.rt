//! What is known of a statement from its lexemes alone.
ghost use Rattle.std.specs.Prelude.{◌≡◌, ◌+◌, ◌^◌, ◌<◌, slice_index};
ghost use Rattle.std.specs.Char.{is_ascii_alphabetic};
ghost use Rattle.script.specs.Statements.{statement_kind, kind_of_word, first_word, span, entered};
ghost use Rattle.script.specs.Faults.{fault_number, fault_place, token_check};
ghost use Rattle.script.specs.Walk.{one_more, none_yet};

use crate::token::{FirstWord, Kind, Lexeme};

/// What a statement does. `theorem` and `lemma` spell `def`, `constant` spells `axiom`.
#[derive(Clone, Copy, PartialEq, Eq, Debug)]
pub enum StatementKind {
    Def,
    Axiom,
    Check,
    Eval,
}

/// Bytes of the script.
#[derive(Clone, Copy, PartialEq, Eq, Debug)]
pub struct Span {
    pub at: usize,
    pub len: usize,
}

// Stays: `tokens` and `wrong`, and no tally: each is asked for alone, and `st.tally.tokens` would be no plainer.
/// A statement's first byte, the byte past its end, its kind if its first lexeme is one of the
/// seven words, the name that a def or an axiom would enter, how many lexemes it has, and the
/// place of the first that is no token.
#[derive(Clone, Copy, PartialEq, Eq, Debug)]
pub struct Statement {
    pub at: usize,
    pub end: usize,
    pub kind: Option<StatementKind>,
    pub name: Option<Span>,
    pub tokens: usize,
    pub wrong: Option<usize>,
}

/// Why a statement is refused before it is read, with the place.
#[derive(Clone, Copy, PartialEq, Eq, Debug)]
pub enum ScriptFault {
    NoToken(usize),
    TooManyTokens(usize),
}

/// How many lexemes there were, and the place of the first that is no token.
#[derive(Clone, Copy, PartialEq, Eq, Debug, Default)]
pub struct Tally {
    pub tokens: usize,
    pub wrong: Option<usize>,
}

impl ScriptFault {
    /// The refusal's number.
    // Stays: an outline prints the number, which `fault.number()` says and `u32::from(fault)` would not.
    pub fn number(self) -> u32
        ensures { result ≡ fault_number self }
    {
        match self {
            ScriptFault::NoToken(_) => 1,
            ScriptFault::TooManyTokens(_) => 2,
        }
    }

    /// Where it lies.
    pub fn place(self) -> usize
        ensures { result ≡ fault_place self }
    {
        match self {
            ScriptFault::NoToken(at) | ScriptFault::TooManyTokens(at) => at,
        }
    }
}

impl Statement {
    /// Whether each lexeme is a token, and there are at most 4,000.
    pub fn check_tokens(&self) -> Result<(), ScriptFault>
        ensures { result ≡ token_check self.now }
    {
        if let Some(at) = self.wrong {
            return Err(ScriptFault::NoToken(at));
        }
        if self.tokens > 4000 {
            return Err(ScriptFault::TooManyTokens(self.at));
        }
        Ok(())
    }
}

impl From<FirstWord> for StatementKind {
    ghost from_gives = { λ word r. r ≡ kind_of_word word };

    fn from(word: FirstWord) -> StatementKind {
        match word {
            FirstWord::DefWord | FirstWord::TheoremWord | FirstWord::LemmaWord =>
                StatementKind::Def,
            FirstWord::AxiomWord | FirstWord::ConstantWord => StatementKind::Axiom,
            FirstWord::CheckWord => StatementKind::Check,
            FirstWord::EvalWord => StatementKind::Eval,
        }
    }
}

impl From<Lexeme> for Span {
    ghost from_gives = { λ l r. r ≡ span l };

    fn from(lexeme: Lexeme) -> Span {
        Span {
            at: lexeme.at,
            len: lexeme.len,
        }
    }
}

impl Kind {
    /// What a statement does that begins with this; none if no statement does.
    pub fn statement_kind(self) -> Option<StatementKind>
        ensures { result ≡ statement_kind self }
    {
        match self {
            Kind::First(word) => Some(word.into()),
            Kind::Name | Kind::Number(_) | Kind::Fixed(_) | Kind::NoToken => None,
        }
    }
}

impl Lexeme {
    /// Whether it is one of the seven words that begin statements.
    pub fn begins_statement(self) -> bool
        ensures { result ≡ first_word self }
    {
        self.kind.statement_kind().is_some()
    }
}

impl Tally {
    pub fn new() -> Tally
        ensures { result ≡ none_yet }
    {
        Tally::default()
    }

    /// The tally with one lexeme more.
    pub fn with(self, l: Lexeme) -> Tally
        requires { self.tokens + 1 < 2 ^ 64 }
        ensures { result ≡ one_more self l }
    {
        Tally {
            tokens: self.tokens + 1,
            wrong: self.wrong.or((l.kind == Kind::NoToken).then_some(l.at)),
        }
    }
}

/// Whether the byte at a place is a letter.
pub fn begins_with_letter(script: &[u8], at: usize) -> bool
    ensures { result ≡ is_ascii_alphabetic (slice_index script.now at) }
{
    script.get(at).is_some_and(|b| b.is_ascii_alphabetic())
}

/// The name that a statement would enter, by its kind and its second lexeme.
pub fn entered_name(
    script: &[u8],
    kind: Option<StatementKind>,
    second: Option<Lexeme>,
) -> Option<Span>
    ensures { result ≡ entered script.now kind second }
{
    match (kind, second) {
        (
            Some(StatementKind::Def | StatementKind::Axiom),
            Some(
                l @ Lexeme {
                    kind: Kind::Name,
                    ..
                },
            ),
        ) if begins_with_letter(script, l.at) => Some(l.into()),
        _ => None,
    }
}
