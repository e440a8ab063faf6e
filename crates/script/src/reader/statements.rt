//! How a reader moves over statements.
ghost use Rattle.std.specs.Prelude.{◌≡◌, ◌≤◌, length};
ghost use Rattle.std.specs.Iterator.{YieldsFirst, item_count};
ghost use Rattle.script.specs.Statements.{statements_from};
ghost use Rattle.script.specs.View.{script, Moves, Counted, StatementTaken};
ghost use Rattle.script.specs.Left.{left};

use super::Reader;
use crate::statement::{Statement, Tally, entered_name};

impl<'a> Reader<'a> {
    // Past the lexemes before the next first word, which are counted on.
    fn count_rest(&mut self, mut tally: Tally) -> Tally
        requires { tally.tokens ≤ self.old.at }
        ensures { Moves (Counted tally) self.old self.new result }
    {
        while let Some(lexeme) = self.seek() {
            if lexeme.begins_statement() {
                break;
            }
            self.at += lexeme.len;
            tally = tally.with(lexeme);
        }
        tally
    }

    /// The next statement, passed; none where only blanks and comments are left.
    pub fn next_statement(&mut self) -> Option<Statement>
        ensures { Moves StatementTaken self.old self.new result }
    {
        let first = self.next_lexeme()?;
        let kind = first.kind.statement_kind();
        let second = self.seek();
        let name = entered_name(self.script, kind, second);
        let tally = self.count_rest(Tally::new().with(first));
        Some(Statement {
            at: first.at,
            end: self.at,
            kind,
            name,
            tokens: tally.tokens,
            wrong: tally.wrong,
        })
    }

    /// The statements before it, one after the other.
    #[tactic(auto, using(crate::proofs::Few::few_statements))]
    pub fn statements(self) -> Statements<'a>
        ensures value { left result ≡ statements_from (script self.entry) self.entry.at }
        ensures few { length (left result) ≤ length (script self.entry) }
    {
        Statements { reader: self }
    }
}

/// The statements that a reader has before it, as an iterator.
#[derive(Drop)]
pub struct Statements<'a> {
    reader: Reader<'a>,
}

impl<'a> Iterator for Statements<'a> {
    type Item = Statement;

    ghost next_gives = { YieldsFirst left };

    ghost remaining = { item_count left };

    fn next(&mut self) -> Option<Statement> {
        self.reader.next_statement()
    }
}
