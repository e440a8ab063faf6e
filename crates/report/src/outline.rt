//! The outline of a script: what its statements are, from their lexemes alone.
ghost use Rattle.std.specs.Prelude.{◌≡◌, Some, IfOk, OnOk};
ghost use Rattle.report.specs.Lines.{Adds};
ghost use Rattle.report.specs.Outline.{kind_text, name_text, what_lines, answer_lines, outline};

use crate::lines::Lines;
use crate::refusal::Refusal;
use crate::told::{Teller, told};
use script::statement::{Statement, StatementKind};
use std::alloc::{AllocError, Global};

// The teller of outlines: the script is all that it keeps.
#[derive(Clone, Copy)]
struct Outline<'a> {
    script: &'a [u8],
}

// Stays: names are bytes of the script, so the lines are bytes, and a Display would write text.
fn kind_word(kind: StatementKind) -> &'static [u8]
    ensures { result.now ≡ kind_text (Some kind) }
{
    match kind {
        StatementKind::Def => b"def",
        StatementKind::Axiom => b"axiom",
        StatementKind::Check => b"check",
        StatementKind::Eval => b"eval",
    }
}

impl Outline<'_> {
    // The number, place, kind and name of a statement, and its count of tokens.
    fn what(&self, lines: &mut Lines, number: usize, st: &Statement) -> Result<(), AllocError>
        ensures { OnOk result (Adds lines.old (what_lines number self.now.script.now st.now) lines.new) }
    {
        let kind: &[u8] = st.kind.map_or(b"-", kind_word);
        let name: &[u8] = st.name.map_or(b"-", |span| span.bytes(self.script));
        lines.number(b"statement=", number)?;
        lines.number(b"at=", st.at)?;
        lines.text(b"kind=", kind)?;
        lines.text(b"name=", name)?;
        lines.number(b"tokens=", st.tokens)
    }
}

// The refusal that the statement's tokens meet, or 0.
fn check(lines: &mut Lines, st: &Statement) -> Result<(), AllocError>
    ensures { OnOk result (Adds lines.old (answer_lines st.now) lines.new) }
{
    lines.answer(b"place=", st.check_tokens().err().map(Refusal::from))
}

impl Teller for Outline<'_> {
    ghost use Rattle.report.specs.Outline.{Outlines};

    ghost tells = { Outlines };

    fn tell(&mut self, lines: &mut Lines, number: usize, st: &Statement) -> Result<(), AllocError> {
        self.what(lines, number, st)?;
        check(lines, st)
    }
}

/// The lines of all statements, in their order, or the one line of a script that is too long.
pub fn outline_text(heap: Global, script: &[u8]) -> Result<Vec<u8>, AllocError>
    ensures { IfOk result (λ v. v.items ≡ outline script.now) }
{
    told(heap, script, Outline { script })
}
