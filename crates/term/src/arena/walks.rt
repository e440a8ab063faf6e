//! Lifting, lowering and putting in: one walk, which makes a new tree and costs its cells.
ghost use Rattle.std.specs.Prelude.{◌≡◌, ℕ, ◌+◌, ◌*◌, ◌^◌, ◌<◌, ◌≤◌, min, All, map};
ghost use Rattle.term.specs.State.{term, cells_in, Built, Lowered, Shallow};
ghost use Rattle.term.specs.Term.{cells, walk, lift, lower, put};

use crate::arena::Arena;
use crate::change::{Change, Lift, Lower, Put};
use crate::faults::Spent;
use crate::node::Node;

impl Arena {
    // A copy of the tree with each local that points out of it raised by `n`.
    pub fn lift(&mut self, n: u32, id: usize) -> Result<usize, Spent>
        ensures { Built self.old self.new (cells (lift n 0 (term self.old id))) (lift n 0 (term self.old id)) result }
    {
        self.walk(Lift(n), 0, id)
    }

    // A copy of the tree without the `n` nearest binders, or none, at no cost, if one is named.
    pub fn lower(&mut self, n: u32, id: usize) -> Result<Option<usize>, Spent>
        ensures { Lowered self.old self.new (lower n 0 (term self.old id)) result }
    {
        if self.names(n, id) {
            return Ok(None);
        }
        self.walk(Lower(n), 0, id).map(Some)
    }

    // The tree with terms put in for its nearest binders, the first for the nearest one.
    pub fn put(&mut self, args: &[usize], id: usize) -> Result<usize, Spent>
        requires { All (λ i. i < cells_in self.old) args.now }
        ensures { Built self.old self.new (cells (put (map (term self.old) args.now) 0 (term self.old id))) (put (map (term self.old) args.now) 0 (term self.old id)) result }
    {
        self.walk(Put(args), 0, id)
    }

    // The tree, over which `cut` binders stand, with each local changed.
    fn walk<C: Change>(&mut self, change: C, cut: u32, id: usize) -> Result<usize, Spent>
        requires given { C.given change self.old }
        requires shallow { Shallow cut id }
        ensures { Built self.old self.new (cells (walk (C.changed change self.old) cut (term self.old id))) (walk (C.changed change self.old) cut (term self.old id)) result }
    {
        match self.at(id) {
            Node::Local(p, k) if u64::from(cut) <= k => change.outward(self, cut, p, k),
            leaf @ (Node::Sort(_, _) | Node::Local(_, _) | Node::Entry(_, _)) => self.make(leaf),
            Node::One(p, form, a) => {
                let a = self.walk(change, form.binders() + cut, a)?;
                self.make(Node::One(p, form, a))
            }
            Node::Two(p, form, a, b) => {
                let a = self.walk(change, cut, a)?;
                let b = self.walk(change, form.binders() + cut, b)?;
                self.make(Node::Two(p, form, a, b))
            }
            Node::Match(p, e, l, r) => {
                let e = self.walk(change, cut, e)?;
                let l = self.walk(change, 1 + cut, l)?;
                let r = self.walk(change, 1 + cut, r)?;
                self.make(Node::Match(p, e, l, r))
            }
        }
    }
}
