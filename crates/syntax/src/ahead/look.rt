//! Looking at the next word, and passing it.
ghost use Rattle.std.specs.Prelude.{◌≡◌, ℕ, cond, List, [], is_some};
ghost use Rattle.script.specs.Parts.{lexemes_from};
ghost use Rattle.script.specs.View.{script};
ghost use Rattle.script.specs.Walk.{until};
ghost use Rattle.grammar.specs.Words.{as_token, words};
ghost use Rattle.grammar.specs.Grammar.{is, past, here, begins, next_name, next_number, is_token, begins_token};
ghost use Rattle.syntax.specs.Look.{text, coming, left, lexemes_left, name_bytes, is_nil, Takes};
ghost use Rattle.syntax.specs.Parses.{Eats, Names, Numbers, Expects, Calls, Counts};

use super::Ahead;
use crate::fault::SyntaxFault;
use script::reader::Reader;
use script::statement::Span;
use script::token::{Kind, Lexeme, Mark};

// The next lexeme, passed; none where the statement ends.
fn pull(reader: &mut Reader) -> Option<Lexeme>
    ensures script { script reader.new ≡ script reader.old }
    ensures next { coming result (until (lexemes_from (script reader.old) reader.new.at)) ≡ until (lexemes_from (script reader.old) reader.old.at) }
{
    let lexeme = reader.next_lexeme()?;
    if lexeme.begins_statement() {
        None
    } else {
        Some(lexeme)
    }
}

// Whether a lexeme is this mark.
fn is_mark(kind: Kind, m: Mark) -> bool
    ensures { (x : List ℕ) → result ≡ is_token m (as_token kind x) }
{
    kind == Kind::Fixed(m)
}

// Whether a lexeme begins an atom.
fn begins_atom(kind: Kind) -> bool
    ensures { (x : List ℕ) → result ≡ begins_token (as_token kind x) }
{
    matches!(
        kind,
        Kind::Name
            | Kind::Fixed(
                Mark::TypeWord
                    | Mark::PropWord
                    | Mark::KindWord
                    | Mark::SortWord
                    | Mark::Opens
                    | Mark::OpensBrace
                    | Mark::MatchWord
            )
    )
}

impl<'a> Ahead<'a> {
    /// The words before the next first word, from where a reader stands; the statement ends at `end`.
    pub fn new(reader: Reader<'a>, end: usize) -> Ahead<'a>
        ensures text { text result ≡ script reader.entry }
        ensures left { left result ≡ words (script reader.entry) (until (lexemes_from (script reader.entry) reader.entry.at)) }
        ensures end { result.end ≡ end }
    {
        let mut reader = reader;
        let next = pull(&mut reader);
        Ahead { reader, next, end }
    }

    // Passes the next word if it is what is picked, and answers with what it is picked as.
    pub(crate) fn take<T, F: Fn(Lexeme) -> Option<T>>(&mut self, pick: F) -> Option<T>
        requires { F.IsAlwaysCallable pick }
        ensures { Takes (F.post pick) self.old self.new result }
    {
        let value = pick(self.next?)?;
        self.next = pull(&mut self.reader);
        Some(value)
    }

    /// Passes the next word if it is this mark.
    pub fn eat(&mut self, m: Mark) -> bool
        ensures { Eats m self.old self.new result }
    {
        self.take(|l| is_mark(l.kind, m).then_some(())).is_some()
    }

    /// Passes the next word if it is a name.
    pub fn name(&mut self) -> Option<Span>
        ensures { Names self.old self.new result }
    {
        self.take(|l| match l.kind {
            Kind::Name => Some(l.into()),
            _ => None,
        })
    }

    /// Passes the next word if it is a number.
    pub fn number(&mut self) -> Option<u16>
        ensures { Numbers self.old self.new result }
    {
        self.take(|l| match l.kind {
            Kind::Number(n) => Some(n),
            _ => None,
        })
    }

    /// Whether the next word begins an atom.
    pub fn begins(&self) -> bool
        ensures { result ≡ begins (left self.now) }
    {
        self.next.is_some_and(|l| begins_atom(l.kind))
    }

    /// The place of the next word, or the statement's end.
    pub fn here(&self) -> usize
        ensures { result ≡ here self.now.end (left self.now) }
    {
        self.next.map_or(self.end, |l| l.at)
    }

    /// Whether no word is left.
    pub fn at_end(&self) -> bool
        ensures { result ≡ is_nil (left self.now) }
    {
        self.next.is_none()
    }

    // That the next word does not fit.
    pub(crate) fn misfit(&self) -> SyntaxFault
        ensures { result ≡ SyntaxFault.Misfit (here self.now.end (left self.now)) }
    {
        SyntaxFault::Misfit(self.here())
    }

    /// Passes the next word, which has to be this mark.
    pub fn expect(&mut self, m: Mark) -> Result<(), SyntaxFault>
        ensures { Expects m self.old self.new result }
    {
        if self.eat(m) {
            Ok(())
        } else {
            Err(self.misfit())
        }
    }

    /// Passes the next word, which has to be a name.
    pub fn binder(&mut self) -> Result<Span, SyntaxFault>
        ensures { Calls self.old self.new result }
    {
        let misfit = self.misfit();
        self.name().ok_or(misfit)
    }

    /// Passes the next word, which has to be a number.
    // Stays: `binder` and `count` are two lines each, and one function for both would be no shorter.
    pub fn count(&mut self) -> Result<u16, SyntaxFault>
        ensures { Counts self.old self.new result }
    {
        let misfit = self.misfit();
        self.number().ok_or(misfit)
    }

    /// The script.
    pub fn script(&self) -> &'a [u8]
        ensures { result.now ≡ text self.now }
    {
        self.reader.script()
    }
}
