//! A statement beside the lines that tell how it is judged.
use kernel::fault::Fault;
use kernel::judge::Claim;
use printing::printer::print;
use report::lines::Lines;
use rules::refusal::{Layer, Refusal};
use sorts::SortSystem;
use std::alloc::Global;
use std::test::Fail;
use syntax::read::read_statement;
use syntax::scope::Scope;
use term::arena::Arena;
use term::node::Stored;

#[derive(Clone, Copy)]
pub(crate) struct Case {
    pub(crate) script: &'static [u8],
    pub(crate) lines: &'static [u8],
}

// The budget of each case, and the cells that it and a statement's tokens take.
const BUDGET: usize = 100_000;

const CELLS: usize = 110_000;

// A key and the text of a tree.
fn term_line(lines: &mut Lines, key: &[u8], arena: &Arena, id: usize) -> Result<(), Fail> {
    let mut page = [0u8; 1000];
    let n = print(arena, id, &[], b"", &mut page)?;
    lines.text(key, page.get(..n).unwrap_or(b""))?;
    Ok(())
}

fn accepted(lines: &mut Lines, arena: &Arena, stored: Stored) -> Result<(), Fail> {
    lines.text(b"answer=", b"0")?;
    term_line(lines, b"type=", arena, stored.kind)?;
    match stored.value {
        Some(value) => term_line(lines, b"value=", arena, value),
        None => Ok(lines.text(b"value=", b"-")?),
    }
}

fn refused(lines: &mut Lines, refusal: Refusal) -> Result<(), Fail> {
    let layer: &[u8] = match refusal.layer {
        Layer::Reading => b"reading",
        Layer::Typing => b"typing",
        Layer::Normalising => b"normalising",
        Layer::Book => b"book",
    };
    lines.number(b"answer=", refusal.reason.number() as usize)?;
    lines.number(b"at=", refusal.place)?;
    lines.text(b"layer=", layer)?;
    Ok(())
}

// The lines of a statement that is judged after no entries, and its cost.
fn judged<S: SortSystem>(
    heap: Global,
    system: &S,
    script: &[u8],
    budget: usize,
) -> Result<(Vec<u8>, usize), Fail> {
    let mut arena = Arena::new(heap, CELLS)?;
    arena.allot(0)?;
    let mut scope = Scope::new(heap)?;
    let Ok(sentence) = read_statement(script, 0, &[], &mut scope, &mut arena) else {
        return Err(Fail::new("not read"));
    };
    if sentence.term >= arena.len() || !arena.closed(sentence.term) {
        return Err(Fail::new("not closed"));
    }
    arena.allot(budget)?;
    let claim = Claim {
        entries: &[],
        system,
        kind: sentence.kind,
        mark: 0,
        id: sentence.term,
    };
    let mut lines = Lines {
        bytes: Vec::new(heap),
    };
    match claim.judge(&mut arena) {
        Ok(stored) => accepted(&mut lines, &arena, stored)?,
        Err(Fault::Refused(refusal)) => refused(&mut lines, refusal)?,
        Err(Fault::Spent) => lines.text(b"answer=", b"12")?,
    }
    let cost = budget.saturating_sub(arena.left());
    lines.number(b"cost=", cost)?;
    Ok((lines.bytes, cost))
}

// Whether a statement is judged as its case says, with its cost as its budget too, and runs out
// with one less.
fn is_right<S: SortSystem>(heap: Global, system: &S, case: &Case) -> Result<bool, Fail> {
    let (text, cost) = judged(heap, system, case.script, BUDGET)?;
    let (exact, _) = judged(heap, system, case.script, cost.min(BUDGET))?;
    if text.as_slice() != case.lines || exact.as_slice() != case.lines {
        return Ok(false);
    }
    match cost.checked_sub(1) {
        Some(less) => {
            let (short, _) = judged(heap, system, case.script, less.min(BUDGET))?;
            Ok(short.starts_with(b"answer=12\n"))
        }
        None => Ok(true),
    }
}

// The place of the first case that is judged otherwise.
pub(crate) fn first_wrong<S: SortSystem>(
    heap: Global,
    system: &S,
    cases: &[Case],
) -> Result<Option<usize>, Fail> {
    for (i, case) in cases.iter().enumerate() {
        if !is_right(heap, system, case)? {
            return Ok(Some(i));
        }
    }
    Ok(None)
}
