//! Reading a statement: its tokens are counted, room is made sure of, and it is read by the grammar.
ghost use Rattle.std.specs.Prelude.{◌≡◌, ◌+◌, ◌*◌, ◌≤◌, min, [], length, Ok};
ghost use Rattle.script.specs.Faults.{token_check};
ghost use Rattle.term.specs.State.{cells_in};
ghost use Rattle.syntax.specs.Scopes.{entry_names};
ghost use Rattle.grammar.specs.Misfit.{Misfits};
ghost use Rattle.grammar.specs.Statements.{OneStatement};
ghost use Rattle.syntax.specs.Parses.{now, HoldsSame, AsSteps};
ghost use Rattle.syntax.specs.Reads.{Finishes, NewName, whole_steps, ParsedStatement, Over, Next, TokensRead, ReadAs, fault_number, fault_at};

use crate::ahead::Ahead;
use crate::fault::SyntaxFault;
use crate::parser::Parser;
use crate::scope::{Scope, binders};
use script::reader::Reader;
use script::statement::{ScriptFault, Span, Statement, StatementKind, begins_with_letter};
use script::token::Mark;
use term::arena::Arena;

/// A statement that was read: what it is, what it does, and the index of its term.
#[derive(Clone, Copy, PartialEq, Eq, Debug)]
pub struct Sentence {
    pub statement: Statement,
    pub kind: StatementKind,
    pub term: usize,
}

/// Why a statement was not read: there is none, its tokens are refused, there are fewer free cells
/// than twice its tokens and the budget, or it does not read.
#[derive(Clone, Copy, PartialEq, Eq, Debug)]
pub enum ReadFault {
    Nothing,
    Tokens(ScriptFault),
    NoRoom,
    Syntax(SyntaxFault),
}

// Stays: this and the next by hand, since what `#[from]` of the kit writes has no contract.
impl From<ScriptFault> for ReadFault {
    ghost use Rattle.syntax.specs.declared.read.ReadFault.TheVariants.{Tokens};

    ghost from_gives = { λ fault r. r ≡ Tokens fault };

    fn from(refused: ScriptFault) -> ReadFault {
        ReadFault::Tokens(refused)
    }
}

impl From<SyntaxFault> for ReadFault {
    ghost use Rattle.syntax.specs.declared.read.ReadFault.TheVariants.{Syntax};

    ghost from_gives = { λ fault r. r ≡ Syntax fault };

    fn from(refused: SyntaxFault) -> ReadFault {
        ReadFault::Syntax(refused)
    }
}

impl ReadFault {
    /// The refusal's number.
    // Stays: a report prints the number, which `fault.number()` says and `u32::from(fault)` would not.
    pub fn number(self) -> u32
        ensures { result ≡ fault_number self }
    {
        match self {
            ReadFault::Nothing => 22,
            ReadFault::Tokens(fault) => fault.number(),
            ReadFault::NoRoom => 23,
            ReadFault::Syntax(fault) => fault.number(),
        }
    }

    /// Where it lies, if it has a place.
    pub fn place(self) -> Option<usize>
        ensures { result ≡ fault_at self }
    {
        match self {
            ReadFault::Nothing | ReadFault::NoRoom => None,
            ReadFault::Tokens(fault) => Some(fault.place()),
            ReadFault::Syntax(fault) => Some(fault.place()),
        }
    }
}

impl Parser<'_> {
    // No word may be left.
    // Stays: apart from `Ahead::expect`, which passes a word, where this passes none.
    fn finish(&self) -> Result<(), SyntaxFault>
        ensures { Finishes self.now.words result }
    {
        if self.words.at_end() {
            Ok(())
        } else {
            Err(self.words.misfit())
        }
    }

    // E and nothing more.
    fn whole(&mut self) -> Result<usize, SyntaxFault>
        ensures parsed { AsSteps 1 whole_steps (now self.old) (now self.new) result }
        ensures over { Over self.new.words result }
        ensures same { HoldsSame self.old self.new }
    {
        let e = self.expr()?;
        self.finish()?;
        Ok(e)
    }

    // A name that begins with a letter and is not yet entered.
    fn new_name(&mut self) -> Result<Span, SyntaxFault>
        ensures parsed { NewName (now self.old) (now self.new) result }
        ensures same { HoldsSame self.old self.new }
    {
        let place = self.here();
        let words = &mut self.words;
        let x = words.binder()?;
        let script = words.script();
        let name = x.bytes(script);
        if !begins_with_letter(name, 0) {
            return Err(SyntaxFault::Misfit(place));
        }
        match binders::entry_named(script, self.entries, name) {
            Some(_) => Err(SyntaxFault::KnownName(place)),
            None => Ok(x),
        }
    }

    // What a statement of this kind has after its first word.
    fn body(&mut self, kind: StatementKind) -> Result<usize, SyntaxFault>
        requires { self.old.scope.now.names.items ≡ [] }
        ensures parsed { ParsedStatement kind (now self.old) (now self.new) result }
        ensures over { Over self.new.words result }
        ensures same { HoldsSame self.old self.new }
    {
        match kind {
            StatementKind::Def => {
                self.new_name()?;
                let e = self.valued()?;
                self.finish()?;
                Ok(e)
            }
            StatementKind::Axiom => {
                self.new_name()?;
                self.words.expect(Mark::Colon)?;
                self.whole()
            }
            StatementKind::Check | StatementKind::Eval => self.whole(),
        }
    }
}

// The statement from its first word on, which is known to have few tokens and room.
fn read_tokens(
    script: &[u8],
    at: usize,
    entries: &[Span],
    scope: &mut Scope,
    arena: &mut Arena,
    statement: Statement,
) -> Result<Sentence, SyntaxFault>
    requires next { Next script.now (min at (length script.now)) statement }
    requires tokens { token_check statement ≡ Ok tt }
    requires few { statement.tokens ≤ 4000 }
    requires room { cells_in arena.old + arena.old.left + 2 * statement.tokens ≤ arena.old.limit }
    requires shut { scope.old.names.items ≡ [] }
    ensures read { TokensRead script.now (min at (length script.now)) (entry_names script.now entries.now) arena.old arena.new statement result }
    ensures shut { scope.new.names.items ≡ [] }
{
    let mut reader = Reader::from_place(script, at);
    // Stays: tried with `ok_or`; the goals on the two refusals, which speak of the reader before it, stayed open.
    let Some(first) = reader.next_lexeme() else {
        return Err(SyntaxFault::Misfit(statement.end))
    };
    let Some(kind) = first.kind.statement_kind() else {
        return Err(SyntaxFault::Misfit(first.at))
    };
    let mut parser = Parser {
        words: Ahead::new(reader, statement.end),
        entries,
        scope,
        arena,
    };
    let term = parser.body(kind)?;
    Ok(Sentence {
        statement,
        kind,
        term,
    })
}

// Stays: what is read and what it is read into have owners of their own, which lend them for one call.
/// Reads the statement that comes next at a place, against the names of the entries. On a refusal
/// the cells are as they were; however it ends, no binder is open.
#[tactic(auto, using(grammar::proofs::Reader::one_statement, grammar::proofs::Misfit::misfits))]
pub fn read_statement(
    script: &[u8],
    at: usize,
    entries: &[Span],
    scope: &mut Scope,
    arena: &mut Arena,
) -> Result<Sentence, ReadFault>
    ensures read { ReadAs script.now (min at (length script.now)) (entry_names script.now entries.now) arena.old arena.new result }
    ensures shut { scope.new.names.items ≡ [] }
    ensures one { OneStatement }
    ensures misfit { Misfits }
{
    scope.close(0);
    let mut reader = Reader::from_place(script, at);
    let statement = reader.next_statement().ok_or(ReadFault::Nothing)?;
    statement.check_tokens()?;
    if arena.free() < arena.left() + 2 * statement.tokens {
        return Err(ReadFault::NoRoom);
    }
    let mark = arena.len();
    let read = read_tokens(script, at, entries, scope, arena, statement);
    if read.is_err() {
        arena.rewind(mark);
    }
    Ok(read?)
}
