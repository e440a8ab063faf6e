//! The arena: the cells of all terms and contexts, and what is left of the budget.
ghost use Rattle.std.specs.Prelude.{◌+◌, ◌≤◌, vec_len, vec_capacity};
ghost use Rattle.term.specs.Cells.{Sound};

use crate::node::Cell;

pub mod cells;
pub mod contexts;
mod gap;
pub mod looks;
pub mod store;
pub mod walks;

// The most cells that an arena may have.
pub const MOST_CELLS: usize = 1_000_000;

// At most `limit` cells, for which there is room from the start. The free ones suffice for what is left.
// Stays: all memory is reserved at the start, so a term is an index and not a box, and a shared part is one cell.
#[derive(Drop)]
pub struct Arena {
    pool: Vec<Cell>,
    left: usize,
    limit: usize,
    ghost sound: { Sound pool.items },
    ghost room: { vec_len pool + left ≤ limit },
    ghost held: { limit ≤ vec_capacity pool },
    ghost few: { limit ≤ 1000000 },
}
