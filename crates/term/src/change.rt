//! What the walks over a tree make of its locals, and what they ask of them.
ghost use Rattle.std.proofs.Common.{ap, rules};
ghost use Rattle.std.specs.Prelude.{◌≡◌, ℕ, ◌*◌, ◌^◌, ◌<◌, ◌≤◌, Bool, map, refl, ⊤};
ghost use Rattle.term.specs.declared.arena.Arena.{Arena};
ghost use Rattle.term.specs.State.{cells_in, term, Built, Kept};
ghost use Rattle.term.specs.Term.{Term, local, cells, raised, lowered, filled, naming, leaving};
ghost use Rattle.term.specs.Walk.{AllIn, all_in_kept, terms_kept};

use crate::arena::Arena;
use crate::faults::Spent;
use crate::node::Node;

// What a walk makes of each local of a tree.
pub trait Change: Copy {
    // The term that stands for a local, with so many binders over it, by its place and its number.
    ghost changed: { Self → Arena → ℕ → ℕ → ℕ → Term };

    // What it puts in is there.
    ghost given: { Self → Arena → Type 0 };

    // Makes the term that stands for a local that points out of the binders over it.
    fn outward(self, arena: &mut Arena, cut: u32, place: usize, number: u64) -> Result<usize, Spent>
        requires given { given self arena.old }
        requires out { cut ≤ number }
        requires small { number ≤ cells_in arena.old * 2 ^ 32 }
        ensures { Built arena.old arena.new (cells (changed self arena.old cut place number)) (changed self arena.old cut place number) result };

    // A local that points to one of those binders stays as it is.
    ghost inward: { (x : Self) (a : Arena) (d p k : ℕ) → k < d → changed x a d p k ≡ local p k };

    // Cells that are added later leave it as it is.
    ghost kept: { (x : Self) (a b : Arena) → Kept a b → given x a → given x b × (changed x b ≡ changed x a) };
}

// Raises each local that points out of the tree by so much.
#[derive(Clone, Copy)]
pub struct Lift(pub u32);

impl Change for Lift {
    ghost changed = { λ x a. raised x.0 };

    ghost given = { λ x a. ⊤ };

    ghost inward = { Prim.search rules };

    ghost kept = { λ x a b k h. (h, refl) };

    fn outward(
        self,
        arena: &mut Arena,
        _cut: u32,
        place: usize,
        number: u64,
    ) -> Result<usize, Spent> {
        arena.make(Node::Local(place, number + u64::from(self.0)))
    }
}

// Lowers each local that points out of the tree by so much.
// Stays: apart from `Lift`; one struct over a closure would need a clause on it, where neither has one now.
#[derive(Clone, Copy)]
pub struct Lower(pub u32);

impl Change for Lower {
    ghost changed = { λ x a. lowered x.0 };

    ghost given = { λ x a. ⊤ };

    ghost inward = { Prim.search rules };

    ghost kept = { λ x a b k h. (h, refl) };

    fn outward(
        self,
        arena: &mut Arena,
        _cut: u32,
        place: usize,
        number: u64,
    ) -> Result<usize, Spent> {
        arena.make(Node::Local(place, number.saturating_sub(u64::from(self.0))))
    }
}

// Puts a term in for each of the nearest binders, the first for the nearest one.
#[derive(Clone, Copy)]
pub struct Put<'a>(pub &'a [usize]);

impl Change for Put<'_> {
    ghost changed = { λ x a. filled (map (term a) x.0.now) };

    ghost given = { λ x a. AllIn a x.0.now };

    ghost inward = { Prim.search rules };

    ghost kept = { λ x a b k h. (all_in_kept x.0.now k h, ap filled (terms_kept x.0.now k h)) };

    #[tactic(auto, using(crate::proofs::Putting::filled_at, crate::proofs::Putting::filled_past))]
    fn outward(
        self,
        arena: &mut Arena,
        cut: u32,
        place: usize,
        number: u64,
    ) -> Result<usize, Spent> {
        match self.0.get((number - u64::from(cut)) as usize) {
            Some(&arg) => arena.lift(cut, arg),
            None => arena.make(Node::Local(place, number - self.0.len() as u64)),
        }
    }
}

// A question about a local of a tree.
// Stays: a trait and not a closure, since its ghost member names the question in the contract of the walk.
pub trait Test: Copy {
    // Whether it holds of a local, with so many binders over it, by its number.
    ghost asked: { Self → ℕ → ℕ → Bool };

    // Asks it.
    fn holds(self, cut: u32, number: u64) -> bool
        ensures { result ≡ asked self cut number };
}

// Whether a local names one of so many nearest binders.
#[derive(Clone, Copy)]
pub struct Names(pub u32);

impl Test for Names {
    ghost asked = { λ x. naming x.0 };

    fn holds(self, cut: u32, number: u64) -> bool {
        u64::from(cut) <= number && number < u64::from(cut) + u64::from(self.0)
    }
}

// Whether a local points out of the tree.
#[derive(Clone, Copy)]
pub struct Leaves;

impl Test for Leaves {
    ghost asked = { λ x. leaving };

    fn holds(self, cut: u32, number: u64) -> bool {
        u64::from(cut) <= number
    }
}
