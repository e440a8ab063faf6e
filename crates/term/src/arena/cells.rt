//! Making the arena, reading and adding cells, and paying for them.
ghost use Rattle.std.specs.Prelude.{◌≡◌, ℕ, ◌+◌, ◌*◌, ◌^◌, ◌<◌, ◌≤◌};
ghost use Rattle.term.specs.Cells.{form, MayStandAt};
ghost use Rattle.term.specs.State.{term, cells_in, Opened, Holds, Read, Spends, Pushes, Added, Built, Allots, Rewound, HasSpare};
ghost use Rattle.term.specs.Term.{place};
ghost use Rattle.term.specs.declared.node.Cell.TheVariants.{Part};

use crate::arena::{Arena, MOST_CELLS};
use crate::faults::{Full, Spent, Unmade};
use crate::node::{Cell, Node};
use std::alloc::Global;

// The root of the tree where no term stands.
// Stays: each index has a tree then, and no function of the arena fails for one that is too high.
const BLANK: Node = Node::Sort(0, 0);

impl Arena {
    // An empty arena for `limit` cells, with all of them as its budget.
    pub fn new(heap: Global, limit: usize) -> Result<Arena, Unmade>
        ensures { Opened limit result }
    {
        if !(1..=MOST_CELLS).contains(&limit) {
            return Err(Unmade::Size);
        }
        let pool = Vec::with_capacity(heap, limit)?;
        Ok(Arena {
            pool,
            left: limit,
            limit,
        })
    }

    // What is left of the budget.
    pub fn left(&self) -> usize
        ensures { result ≡ self.now.left }
    {
        self.left
    }

    // How many cells there are: an index below this is that of a cell.
    pub fn len(&self) -> usize
        ensures { result ≡ cells_in self.now }
    {
        self.pool.len()
    }

    // Takes `cost` from what is left.
    pub fn spend(&mut self, cost: usize) -> Result<(), Spent>
        ensures { Spends self.old self.new cost result }
    {
        self.left = self.left.checked_sub(cost).ok_or(Spent)?;
        Ok(())
    }

    // One cell more, which `spend` has paid for: what it refers to is there, and there is room.
    #[tactic(auto, using(crate::proofs::Trees::pushed))]
    pub(super) fn push(&mut self, cell: Cell) -> usize
        requires free { HasSpare self.old }
        requires fits { MayStandAt (cells_in self.old) cell }
        ensures { Pushes self.old self.new cell result }
    {
        let id = self.pool.len();
        self.pool.push_reserved(cell);
        id
    }

    // One cell of a term more, which `spend` has paid for.
    // Stays: where a node may stand is a fact of a node and an arena, so the type of neither keeps it.
    pub fn add(&mut self, node: Node) -> usize
        requires free { HasSpare self.old }
        requires fits { MayStandAt (cells_in self.old) (Part node) }
        ensures { Added self.old self.new node result }
    {
        self.push(Cell::Part(node))
    }

    // One cell more, which costs 1.
    pub fn make(&mut self, node: Node) -> Result<usize, Spent>
        requires fits { MayStandAt (cells_in self.old) (Part node) }
        ensures { Built self.old self.new 1 (form node (term self.old)) result }
    {
        self.spend(1)?;
        Ok(self.add(node))
    }

    // The cell at `id`, or a blank one where there is none.
    pub(super) fn cell(&self, id: usize) -> Cell
        ensures { Holds self.now id result }
    {
        self.pool.get(id).copied().unwrap_or(Cell::Part(BLANK))
    }

    // The root of the tree at `id`, a blank one where no term stands there.
    pub fn at(&self, id: usize) -> Node
        ensures { Read self.now id result }
    {
        match self.cell(id) {
            Cell::Part(node) => node,
            Cell::Under(_) => BLANK,
        }
    }

    // The place of the tree at `id`.
    pub fn place(&self, id: usize) -> usize
        ensures { result ≡ place (term self.now id) }
    {
        self.at(id).place()
    }

    // How many cells may still be added.
    pub fn free(&self) -> usize
        ensures { result + cells_in self.now ≡ self.now.limit }
    {
        self.limit - self.pool.len()
    }

    // Makes `budget` what is left, if there are as many free cells.
    pub fn allot(&mut self, budget: usize) -> Result<(), Full>
        ensures { Allots self.old self.new budget result }
    {
        if self.free() < budget {
            return Err(Full);
        }
        self.left = budget;
        Ok(())
    }

    // Lets the cells from `mark` on go.
    #[tactic(auto, using(crate::proofs::Trees::taken))]
    pub fn rewind(&mut self, mark: usize)
        ensures { Rewound self.old self.new mark }
    {
        self.pool.truncate(mark);
    }
}
