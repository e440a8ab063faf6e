//! The reprint of a script: each statement's term as it was read, in its canonical text.
ghost use Rattle.std.specs.Prelude.{◌≡◌, ◌<◌, ◌≤◌, length, IfOk, OnOk, vec_len, codes};
ghost use Rattle.report.specs.Lines.{Adds, line};
ghost use Rattle.report.specs.Told.{IsTooLong};
ghost use Rattle.report.specs.Reprint.{IsReprint, Cleared};

use crate::lines::{Lines, MOST_BYTES};
use crate::refusal::Refusal;
use crate::told::{Teller, told, too_long};
use printing::printer::print;
use script::statement::{Span, Statement};
use std::alloc::{AllocError, Global};
use syntax::read::read_statement;
use syntax::scope::Scope;
use term::arena::Arena;

// Two cells for each of the 4,000 tokens that a statement may have.
const CELLS: usize = 8000;

// More than the text of as many cells takes.
const TEXT_BYTES: usize = 1_000_000;

// What is kept from statement to statement: the script, the names of the defs and axioms that were
// read, and the memory that each statement is read and printed in.
#[derive(Drop)]
struct Reprint<'a> {
    script: &'a [u8],
    entries: Vec<Span>,
    scope: Scope,
    arena: Arena,
    page: Vec<u8>,
}

// An arena with no budget: what is read is not paid for.
fn cleared(heap: Global) -> Result<Arena, AllocError>
    ensures { IfOk result Cleared }
{
    let Ok(mut arena) = Arena::new(heap, CELLS) else {
        return Err(AllocError)
    };
    let _ = arena.allot(0);
    Ok(arena)
}

// A page of so many bytes. A function of its own, so that no proof counts them.
fn blank(heap: Global, length: usize) -> Result<Vec<u8>, AllocError>
    ensures { IfOk result (λ page. vec_len page ≡ length) }
{
    vec![in heap; 0u8; length]
}

impl<'a> Reprint<'a> {
    ghost use Rattle.report.specs.Reprint.{Begins, SameButPage, Accepts, fitting, text_at};

    fn new(heap: Global, script: &'a [u8]) -> Result<Reprint<'a>, AllocError>
        ensures { IfOk result (Begins script.now) }
    {
        Ok(Reprint {
            script,
            entries: Vec::new(heap),
            scope: Scope::new(heap)?,
            arena: cleared(heap)?,
            page: blank(heap, TEXT_BYTES)?,
        })
    }

    // The line of the tree's text, or of a dash if the page is too small for it.
    fn term_line(&mut self, lines: &mut Lines, id: usize) -> Result<(), AllocError>
        ensures told { OnOk result (Adds lines.old (line (codes "term=") (fitting (vec_len self.old.page) (text_at self.old id))) lines.new) }
        ensures rest { SameButPage self.old self.new }
    {
        let printed = print(
            &self.arena,
            id,
            self.entries.as_slice(),
            self.script,
            self.page.as_mut_slice(),
        );
        let text: &[u8] = printed.map_or(b"-", |n| &self.page.as_slice()[..n]);
        lines.text(b"term=", text)
    }

    // The lines of a tree that was read; the name of a def or an axiom becomes an entry.
    fn accept(&mut self, lines: &mut Lines, id: usize, name: Option<Span>) -> Result<(), AllocError>
        ensures { OnOk result (Accepts self.old self.new id name lines.old.bytes.items lines.new.bytes.items) }
    {
        lines.answer(b"at=", None)?;
        self.term_line(lines, id)?;
        self.arena.rewind(0);
        if let Some(name) = name {
            self.entries.push(name)?;
        }
        Ok(())
    }
}

impl Teller for Reprint<'_> {
    ghost use Rattle.report.specs.Reprint.{Reprints};

    ghost tells = { Reprints };

    fn tell(&mut self, lines: &mut Lines, number: usize, st: &Statement) -> Result<(), AllocError> {
        lines.number(b"statement=", number)?;
        match read_statement(
            self.script,
            st.at,
            self.entries.as_slice(),
            &mut self.scope,
            &mut self.arena,
        ) {
            Ok(sentence) => self.accept(lines, sentence.term, st.name),
            Err(fault) => {
                lines.answer(b"at=", Some(Refusal::from(fault)))?;
                lines.text(b"term=", b"-")
            }
        }
    }
}

/// The lines of all statements, in their order, or the one line of a script that is too long.
// Stays: tested here and in `told`, so that no arena and no page is made for a script that is too long.
pub fn reprint_text(heap: Global, script: &[u8]) -> Result<Vec<u8>, AllocError>
    ensures long { 1000000 < length script.now → IfOk result (λ v. IsTooLong v.items) }
    ensures all { length script.now ≤ 1000000 → IfOk result (λ v. IsReprint script.now v.items) }
{
    if script.len() > MOST_BYTES {
        return too_long(heap);
    }
    told(heap, script, Reprint::new(heap, script)?)
}
