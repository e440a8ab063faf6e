//! The parts of a term, if it has the form that a rule names.
ghost use Rattle.std.specs.Prelude.{◌≡◌, ℕ, Option};
ghost use Rattle.normal.specs.Views.{Part, Parts};

use term::arena::Arena;
use term::node::{Binary, Node, Unary};

// One of two: the first or the second part of a pair, or the left or the right side of a sum.
#[derive(Clone, Copy, Debug, PartialEq, Eq)]
pub enum Side {
    First,
    Second,
}

impl Side {
    ghost use Rattle.normal.specs.Views.{projection, chosen};

    // The form that takes it out of a pair.
    pub(crate) fn projection(self) -> Unary
        ensures { result ≡ projection self }
    {
        match self {
            Side::First => Unary::Fst,
            Side::Second => Unary::Snd,
        }
    }

    // That one of the two.
    pub fn of(self, pair: (usize, usize)) -> usize
        ensures { result ≡ chosen self pair }
    {
        match self {
            Side::First => pair.0,
            Side::Second => pair.1,
        }
    }
}

// The part of a term, if it has that form.
// Stays: `part` and `parts` are two shapes of a node; one function would need a trait of shapes.
pub fn part(arena: &Arena, form: Unary, id: usize) -> Option<usize>
    ensures { Part arena.now form id result }
{
    match arena.at(id) {
        Node::One(_, found, a) if found == form => Some(a),
        _ => None,
    }
}

// The parts of a term, if it has that form.
pub fn parts(arena: &Arena, form: Binary, id: usize) -> Option<(usize, usize)>
    ensures { Parts arena.now form id result }
{
    match arena.at(id) {
        Node::Two(_, found, a, b) if found == form => Some((a, b)),
        _ => None,
    }
}
