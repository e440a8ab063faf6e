//! Contexts: a binder that is stepped under is one cell, before the context outside it.
ghost use Rattle.std.specs.Prelude.{◌≡◌, ℕ, ◌+◌, ◌≤◌, ◌∷◌};
ghost use Rattle.term.specs.Cells.{opened, span};
ghost use Rattle.term.specs.State.{term, ctx, cells_in, Entered, Found};
ghost use Rattle.term.specs.declared.node.Cell.TheVariants.{Under};

use crate::arena::Arena;
use crate::faults::Spent;
use crate::node::{Binder, Cell};

impl Arena {
    // A step under a binder, which costs 1. What it refers to is there.
    pub fn enter(&mut self, binder: Binder) -> Result<usize, Spent>
        requires { span (Under binder) ≤ cells_in self.old }
        ensures { Entered self.old self.new (opened binder (term self.old) ∷ ctx self.old binder.outer) result }
    {
        self.spend(1)?;
        Ok(self.push(Cell::Under(binder)))
    }

    // The `k`-th binder of a context, from the nearest.
    // Stays: a context is a chain of cells, so the k-th binder is found by going outwards k times.
    pub fn binder(&self, context: Option<usize>, k: u64) -> Option<Binder>
        ensures { Found self.now context k result }
    {
        let Cell::Under(binder) = self.cell(context?) else {
            return None;
        };
        if k == 0 {
            Some(binder)
        } else {
            self.binder(binder.outer, k - 1)
        }
    }
}
