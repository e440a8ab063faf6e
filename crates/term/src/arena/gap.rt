//! The cells that storing takes out.
ghost use Rattle.std.specs.Prelude.{◌≡◌, ℕ, ◌+◌, ◌-◌, ◌≤◌, vec_len, vec_capacity};
ghost use Rattle.std.specs.List.{remove_range};

use crate::node::Cell;

// The cells from `mark` to `top`. Copies are made above them, and then they are taken out.
#[derive(Clone, Copy)]
pub(super) struct Gap {
    pub(super) mark: usize,
    pub(super) top: usize,
    ghost order: { mark ≤ top },
}

impl Gap {
    // The index that the cell at `id`, above the gap, has once the gap is closed.
    pub(super) fn moved(self, id: usize) -> usize
        requires { self.top ≤ id }
        ensures { result + (self.top - self.mark) ≡ id }
    {
        id - (self.top - self.mark)
    }

    // Takes the cells out.
    pub(super) fn close(self, pool: &mut Vec<Cell>)
        requires { self.top ≤ vec_len pool.old }
        ensures items { pool.new.items ≡ remove_range pool.old.items self.mark self.top }
        ensures len { vec_len pool.new + (self.top - self.mark) ≡ vec_len pool.old }
        ensures capacity { vec_capacity pool.new ≡ vec_capacity pool.old }
    {
        let end = self.moved(pool.len());
        pool.copy_within(self.top.., self.mark);
        pool.truncate(end);
    }
}
