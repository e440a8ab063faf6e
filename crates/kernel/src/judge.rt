//! Judging a statement: what its kind needs, and then the storing of its type and value.
ghost use Rattle.std.specs.Prelude.{◌≡◌, ℕ, suc, ◌+◌, ◌<◌, ◌≤◌, true, List};
ghost use Rattle.term.specs.Cells.{bound, over};
ghost use Rattle.term.specs.Layout.{shut};
ghost use Rattle.term.specs.State.{term, cells_in};
ghost use Rattle.term.specs.Term.{closed};
ghost use Rattle.rules.specs.Derivation.{System, Spot};
ghost use Rattle.rules.specs.Laws.{Laws};
ghost use Rattle.rules.specs.Rules.{Entry};
ghost use Rattle.rules.specs.Scope.{Sealed};
ghost use Rattle.rules.specs.Statement.{settles, judged, spot_of};
ghost use Rattle.normal.specs.Views.{rows, top};
ghost use Rattle.kernel.specs.Judging.{Concludes, Judged, Exact};

use crate::fault::Fault;
use crate::typing::Typing;
use normal::site::Site;
use script::statement::StatementKind;
use sorts::SortSystem;
use term::arena::Arena;
use term::node::Stored;

// A statement of a kind about the term at `id`, after some entries and in a system of sorts. Its
// cells begin at `mark`, above those of the entries.
#[derive_where(Clone, Copy)]
pub struct Claim<'a, S> {
    pub entries: &'a [Stored],
    pub system: &'a S,
    pub kind: StatementKind,
    pub mark: usize,
    pub id: usize,
}

// Stays: the arena is lent for one judgement and kept by its owner, so each contract says what must be there.
impl<'a, S: SortSystem> Claim<'a, S> {
    // Judges the statement, within what is left of the budget.
    pub fn judge(&self, arena: &mut Arena) -> Result<Stored, Fault>
        requires entries { top self.now.entries.now ≤ self.now.mark }
        requires mark { self.now.mark ≤ cells_in arena.old }
        requires id { self.now.id < cells_in arena.old }
        requires sealed { Sealed (rows arena.old self.now.entries.now) }
        requires closed { closed 0 (term arena.old self.now.id) ≡ true }
        ensures judged { Judged (S.SortSystem.answers self.now.system.now) (rows arena.old self.now.entries.now) self.now.kind (term arena.old self.now.id) arena.old arena.new self.now.mark result }
        ensures exact { Exact (S.SortSystem.answers self.now.system.now) (rows arena.old self.now.entries.now) self.now.kind (term arena.old self.now.id) arena.old.left result }
        ensures laws { Laws }
    {
        let result = self.by_kind(arena);
        if result.is_err() {
            arena.rewind(self.mark);
        }
        result
    }

    // What a statement of each kind needs: a type and a form, the form of a type, or a type alone.
    fn by_kind(&self, arena: &mut Arena) -> Result<Stored, Fault>
        requires entries { top self.now.entries.now ≤ self.now.mark }
        requires mark { self.now.mark ≤ cells_in arena.old }
        requires id { self.now.id < cells_in arena.old }
        requires sealed { Sealed (rows arena.old self.now.entries.now) }
        requires closed { closed 0 (term arena.old self.now.id) ≡ true }
        ensures { Concludes (S.SortSystem.answers self.now.system.now) (rows arena.old self.now.entries.now) (spot_of (term arena.old self.now.id)) (judged self.now.kind (term arena.old self.now.id)) arena.old arena.new self.now.mark result }
    {
        let site = Site {
            entries: self.entries,
            place: arena.place(self.id),
            context: None,
        };
        let typing = Typing {
            site,
            system: self.system,
        };
        match self.kind {
            StatementKind::Def | StatementKind::Eval => {
                let kind = typing.infer(arena, self.id)?;
                let form = site.norm(arena, self.id)?;
                self.settle(arena, kind, Some(form))
            }
            StatementKind::Axiom => {
                typing.sort(arena, self.id)?;
                let form = site.norm(arena, self.id)?;
                self.settle(arena, form, None)
            }
            StatementKind::Check => {
                let kind = typing.infer(arena, self.id)?;
                self.settle(arena, kind, None)
            }
        }
    }

    // Stores what is kept of a statement, for 1 and its cells.
    fn settle(&self, arena: &mut Arena, kind: usize, value: Option<usize>) -> Result<Stored, Fault>
        requires mark { self.now.mark ≤ cells_in arena.old }
        requires kind { kind < cells_in arena.old }
        requires value { over value ≤ cells_in arena.old }
        requires closed { closed 0 (term arena.old kind) ≡ true }
        requires shut { shut (bound value (term arena.old)) ≡ true }
        ensures { (X : System) (es : List Entry) (w : Spot) → Concludes X es w (settles (term arena.old kind) (bound value (term arena.old))) arena.old arena.new self.now.mark result }
    {
        arena.spend(1)?;
        Ok(arena.store(self.mark, kind, value)?)
    }
}
