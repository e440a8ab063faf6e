//! Where a term stands, and what the rules ask about it there before they go on.
ghost use Rattle.std.specs.Prelude.{◌≡◌, ℕ, suc, ◌+◌, ◌≤◌, ◌∷◌, max};
ghost use Rattle.std.specs.List.{slice_get};
ghost use Rattle.term.specs.State.{term, cells_in};
ghost use Rattle.term.specs.Cells.{typed, bound, over};
ghost use Rattle.rules.specs.Rules.{unbound, assumed, neutral};
ghost use Rattle.term.specs.declared.arena.Arena.{Arena};

use term::arena::Arena;
use term::faults::Spent;
use term::node::{Binary, Binder, Node, Stored, Unary};

// Where a term stands: after which entries, at which place of the script, and in which context.
#[derive(Clone, Copy)]
pub struct Site<'a> {
    pub entries: &'a [Stored],
    pub place: usize,
    pub context: Option<usize>,
}

impl<'a> Site<'a> {
    ghost use Rattle.normal.specs.Views.{Listed, Enters, entries_at, bindings_at, free};

    // The entry `j`.
    pub fn entry(&self, j: usize) -> Option<Stored>
        ensures { Listed self.now.entries.now j result }
    {
        self.entries.get(j).copied()
    }

    // The site under one more binder, which costs 1: of the type and the binding, if it has them.
    pub fn enter(
        &self,
        arena: &mut Arena,
        kind: Option<usize>,
        value: Option<usize>,
    ) -> Result<Site<'a>, Spent>
        requires context { over self.now.context ≤ cells_in arena.old }
        requires kind { over kind ≤ cells_in arena.old }
        requires value { over value ≤ cells_in arena.old }
        ensures { Enters self.now (record { type = typed kind (term arena.old); value = bound value (term arena.old) }) arena.old arena.new result }
    {
        let context = arena.enter(Binder {
            kind,
            value,
            outer: self.context,
        })?;
        Ok(Site {
            context: Some(context),
            ..*self
        })
    }

    // The site under a binder with neither type nor binding.
    pub fn inside(&self, arena: &mut Arena) -> Result<Site<'a>, Spent>
        requires { over self.now.context ≤ cells_in arena.old }
        ensures { Enters self.now free arena.old arena.new result }
    {
        self.enter(arena, None, None)
    }

    // Whether the local `k` is there and has no binding.
    fn is_unbound(&self, arena: &Arena, k: u64) -> bool
        ensures { result ≡ unbound (slice_get (bindings_at self.now arena.now) k) }
    {
        matches!(
            arena.binder(self.context, k),
            Some(Binder { value: None, .. })
        )
    }

    // Whether the entry `j` is there and has no value.
    fn is_assumed(&self, j: usize) -> bool
        ensures { (a : Arena) → result ≡ assumed (slice_get (entries_at self.now a) j) }
    {
        matches!(self.entry(j), Some(Stored { value: None, .. }))
    }

    // Whether a form is neutral.
    pub fn is_neutral(&self, arena: &Arena, id: usize) -> bool
        ensures { result ≡ neutral (entries_at self.now arena.now) (bindings_at self.now arena.now) (term arena.now id) }
    {
        match arena.at(id) {
            Node::Local(_, k) => self.is_unbound(arena, k),
            Node::Entry(_, j) => self.is_assumed(j),
            Node::One(_, Unary::Fst | Unary::Snd, _)
            | Node::Two(_, Binary::App | Binary::Unpack, _, _)
            | Node::Match(_, _, _, _) => true,
            _ => false,
        }
    }
}
