//! Questions about trees that cost nothing: counting cells, equality, whether a tree is closed.
ghost use Rattle.std.specs.Prelude.{◌≡◌, ℕ, ◌+◌, ◌*◌, ◌^◌, ◌<◌, ◌≤◌, min, MatchBool, ◌≢◌};
ghost use Rattle.term.specs.State.{term, capped, Shallow};
ghost use Rattle.term.specs.Term.{cells, bare, any_local, names, closed};
ghost use Rattle.term.specs.Walk.{rest};

use crate::arena::Arena;
use crate::change::{Leaves, Names, Test};
use crate::node::Node;

impl Arena {
    // The cells of the tree, or none where there are more than `cap`: it stops as soon as they are.
    pub fn count(&self, id: usize, cap: usize) -> Option<usize>
        ensures { result ≡ capped cap (cells (term self.now id)) }
    {
        let left = self.pay(id, cap)?;
        Some(cap - left)
    }

    // What is left of `purse` once each cell of the tree has cost 1.
    // Stays: each walk has its own match; their answers are of three types, and one fold would take a closure for each form.
    #[tactic(auto, using(crate::proofs::Trees::cells_pos))]
    fn pay(&self, id: usize, purse: usize) -> Option<usize>
        ensures { result ≡ rest purse (cells (term self.now id)) }
    {
        let purse = purse.checked_sub(1)?;
        match self.at(id) {
            Node::Sort(_, _) | Node::Local(_, _) | Node::Entry(_, _) => { Some(purse) }
            Node::One(_, _, a) => self.pay(a, purse),
            Node::Two(_, _, a, b) => {
                let purse = self.pay(a, purse)?;
                self.pay(b, purse)
            }
            Node::Match(_, e, l, r) => {
                let purse = self.pay(e, purse)?;
                let purse = self.pay(l, purse)?;
                self.pay(r, purse)
            }
        }
    }

    // Whether two trees are equal, places aside.
    // Stays: a derived `==` would compare the indices of the parts, and not the parts.
    pub fn equal(&self, a: usize, b: usize) -> bool
        ensures { MatchBool result (bare (term self.now a) ≡ bare (term self.now b)) (bare (term self.now a) ≢ bare (term self.now b)) }
    {
        if a == b {
            return true;
        }
        match (self.at(a), self.at(b)) {
            (Node::Sort(_, s), Node::Sort(_, t)) => s == t,
            (Node::Local(_, j), Node::Local(_, k)) => j == k,
            (Node::Entry(_, j), Node::Entry(_, k)) => j == k,
            (Node::One(_, o, x), Node::One(_, p, y)) => o == p && self.equal(x, y),
            (Node::Two(_, o, x, v), Node::Two(_, p, y, w)) => {
                o == p && self.equal(x, y) && self.equal(v, w)
            }
            (Node::Match(_, e, l, r), Node::Match(_, f, m, s)) => {
                self.equal(e, f) && self.equal(l, m) && self.equal(r, s)
            }
            _ => false,
        }
    }

    // Whether one of the `n` nearest binders is named.
    pub fn names(&self, n: u32, id: usize) -> bool
        ensures { result ≡ names n 0 (term self.now id) }
    {
        self.any_local(Names(n), 0, id)
    }

    // Whether no local of the tree points out of it.
    pub fn closed(&self, id: usize) -> bool
        ensures { result ≡ closed 0 (term self.now id) }
    {
        !self.any_local(Leaves, 0, id)
    }

    // Whether the test holds of a local of the tree, over which `cut` binders stand.
    fn any_local<T: Test>(&self, test: T, cut: u32, id: usize) -> bool
        requires { Shallow cut id }
        ensures { result ≡ any_local (T.asked test) cut (term self.now id) }
    {
        match self.at(id) {
            Node::Sort(_, _) | Node::Entry(_, _) => false,
            Node::Local(_, k) => test.holds(cut, k),
            Node::One(_, form, a) => self.any_local(test, form.binders() + cut, a),
            Node::Two(_, form, a, b) => {
                self.any_local(test, cut, a) || self.any_local(test, form.binders() + cut, b)
            }
            Node::Match(_, e, l, r) => {
                self.any_local(test, cut, e)
                    || self.any_local(test, 1 + cut, l)
                    || self.any_local(test, 1 + cut, r)
            }
        }
    }
}
