//! Storing what is kept: trees copied down to a mark, compactly and with no sharing.
ghost use Rattle.std.specs.Prelude.{◌≡◌, ℕ, ◌+◌, ◌-◌, ◌*◌, ◌^◌, ◌<◌, ◌≤◌, true, [], ◌∷◌, ◌++◌};
ghost use Rattle.term.specs.Cells.{bound, over, MayStandAt};
ghost use Rattle.term.specs.Layout.{HasGap, close, lay, shut, Lays, LaysAll, Stores};
ghost use Rattle.term.specs.State.{term, cells_in};
ghost use Rattle.term.specs.Term.{cells, closed};
ghost use Rattle.term.specs.declared.node.Cell.TheVariants.{Part};

use crate::arena::Arena;
use crate::arena::gap::Gap;
use crate::faults::Spent;
use crate::node::{Node, Stored};

impl Arena {
    // Stays: `kind` and `value` are what is to be stored; as a `Stored` they would seem to stand already.
    // Stores a type, and a value if there is one, right above `mark`, in place of all that stands
    // there. It costs the cells of both. A closed tree has no local that is too high down there.
    pub fn store(&mut self, mark: usize, kind: usize, value: Option<usize>) -> Result<Stored, Spent>
        requires mark { mark ≤ cells_in self.old }
        requires kind { closed 0 (term self.old kind) ≡ true }
        requires known { over value ≤ cells_in self.old }
        requires value { shut (bound value (term self.old)) ≡ true }
        ensures { Stores self.old self.new mark (term self.old kind) (bound value (term self.old)) result }
    {
        let gap = Gap {
            mark,
            top: self.pool.len(),
        };
        let kind = self.copy(gap, kind)?;
        let value = self.copy_value(gap, value)?;
        gap.close(&mut self.pool);
        Ok(Stored { kind, value })
    }

    // A copy of a value, if there is one.
    // Stays: that the gap lies in the arena is a fact of both, so the type of neither keeps it.
    fn copy_value(&mut self, gap: Gap, value: Option<usize>) -> Result<Option<usize>, Spent>
        requires { HasGap self.old gap }
        ensures { LaysAll self.old self.new gap (bound value (term self.old)) result }
    {
        let Some(id) = value else {
            return Ok(None);
        };
        self.copy(gap, id).map(Some)
    }

    // One cell on the top, which costs 1. Gives the index that it has once the gap is closed, at
    // which its parts are named already.
    fn lay(&mut self, gap: Gap, node: Node) -> Result<usize, Spent>
        requires gap { HasGap self.old gap }
        requires fits { MayStandAt (cells_in self.old) (Part node) }
        ensures { Lays self.old self.new gap (close self.old gap ++ Part node ∷ []) 1 result }
    {
        self.spend(1)?;
        let id = self.add(node);
        Ok(gap.moved(id))
    }

    // A copy of the tree on the top, with no sharing; it costs its cells.
    fn copy(&mut self, gap: Gap, id: usize) -> Result<usize, Spent>
        requires { HasGap self.old gap }
        ensures { Lays self.old self.new gap (lay (close self.old gap) (term self.old id)) (cells (term self.old id)) result }
    {
        match self.at(id) {
            leaf @ (Node::Sort(_, _) | Node::Local(_, _) | Node::Entry(_, _)) => {
                self.lay(gap, leaf)
            }
            Node::One(p, form, a) => {
                let a = self.copy(gap, a)?;
                self.lay(gap, Node::One(p, form, a))
            }
            Node::Two(p, form, a, b) => {
                let a = self.copy(gap, a)?;
                let b = self.copy(gap, b)?;
                self.lay(gap, Node::Two(p, form, a, b))
            }
            Node::Match(p, e, l, r) => {
                let e = self.copy(gap, e)?;
                let l = self.copy(gap, l)?;
                let r = self.copy(gap, r)?;
                self.lay(gap, Node::Match(p, e, l, r))
            }
        }
    }
}
