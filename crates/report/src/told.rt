//! A script told statement by statement.
ghost use Rattle.std.specs.Prelude.{ℕ, ◌<◌, ◌≤◌, List, length, IfOk, OnOk};
ghost use Rattle.script.specs.declared.statement.Statement.{Statement};
ghost use Rattle.script.specs.Statements.{statements_from};
ghost use Rattle.report.specs.Told.{TellsOne, TellsAll, IsTooLong};

use crate::lines::{Lines, MOST_BYTES};
use script::reader::Reader;
use script::statement::Statement;
use std::alloc::{AllocError, Global};

// The refusal of a script that is longer than the programs take.
// Stays: the one refusal of a whole script, which no fault carries.
const TOO_LONG: usize = 13;

// The one line of such a script.
pub(crate) fn too_long(heap: Global) -> Result<Vec<u8>, AllocError>
    ensures { IfOk result (λ v. IsTooLong v.items) }
{
    let mut lines = Lines {
        bytes: Vec::new(heap),
    };
    lines.number(b"answer=", TOO_LONG)?;
    Ok(lines.bytes)
}

// What tells of statements, one after another.
pub(crate) trait Teller {
    // Whether, of the statement of this number, this text is told, and the teller is then so.
    ghost tells: { Self → ℕ → Statement → List ℕ → Self → Type 0 };

    // The lines of the statement of this number.
    fn tell(&mut self, lines: &mut Lines, number: usize, st: &Statement) -> Result<(), AllocError>
        ensures { OnOk result (TellsOne tells self.old number st.now lines.old.bytes.items lines.new.bytes.items self.new) };
}

// The lines of all statements, in their order, or the one line of a script that is too long.
pub(crate) fn told<T: Teller + Drop>(
    heap: Global,
    script: &[u8],
    mut teller: T,
) -> Result<Vec<u8>, AllocError>
    ensures long { 1000000 < length script.now → IfOk result (λ v. IsTooLong v.items) }
    ensures all { length script.now ≤ 1000000 → IfOk result (λ v. TellsAll T.tells teller 1 (statements_from script.now 0) v.items) }
{
    if script.len() > MOST_BYTES {
        return too_long(heap);
    }
    let mut lines = Lines {
        bytes: Vec::new(heap),
    };
    for (i, st) in Reader::new(script).statements().enumerate() {
        teller.tell(&mut lines, i + 1, &st)?;
    }
    Ok(lines.bytes)
}
