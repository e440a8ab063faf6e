//! What the rules of types do besides asking for other judgements.
ghost use Rattle.std.specs.Prelude.{◌≡◌, ℕ, suc, ◌+◌, ◌-◌, ◌*◌, ◌^◌, ◌<◌, ◌≤◌, List, Option, IfOk};
ghost use Rattle.std.specs.Result.{result_map_both};
ghost use Rattle.term.specs.Cells.{bound, over, reach, high};
ghost use Rattle.term.specs.State.{term, cells_in, HasSpare};
ghost use Rattle.rules.specs.Rules.{Question, Entry, as_sort, expect, parts, lowering, ask, gets, has_local, has_entry};
ghost use Rattle.rules.specs.Derivation.{System, refusal};
ghost use Rattle.normal.specs.Views.{Within, Enters, entries_at};
ghost use Rattle.kernel.specs.declared.fault.Fault.TheVariants as fault;
ghost use Rattle.kernel.specs.Faults.{typing};
ghost use Rattle.kernel.specs.Runs.{Ran, Applies, Leads, Expects, pair, tips, unruled, sort_gets};

use crate::fault::{Fault, refused};
use crate::typing::Typing;
use normal::look::parts;
use normal::site::Site;
use rules::refusal::Reason;
use sorts::SortSystem;
use term::arena::Arena;
use term::faults::Spent;
use term::node::{Binary, Node, Unary};

// The sort that a term is.
pub(crate) fn as_sort(arena: &Arena, id: usize) -> Option<u16>
    ensures { result ≡ as_sort (term arena.now id) }
{
    match arena.at(id) {
        Node::Sort(_, sort) => Some(sort),
        _ => None,
    }
}

// The place of a term whose type no rule infers.
pub(crate) fn unruled(arena: &Arena, id: usize) -> Option<usize>
    ensures { result ≡ unruled (term arena.now id) }
{
    match arena.at(id) {
        Node::One(place, Unary::Fun | Unary::Inl | Unary::Inr, _)
        | Node::Two(place, Binary::Pair | Binary::Pack, _, _) => Some(place),
        _ => None,
    }
}

// Stays: a typing is at a site, which holds no arena, so each contract says what is there and what is paid for.
impl<'a, S: SortSystem> Typing<'a, S> {
    // The same, for a term at `place`.
    pub(crate) fn at(&self, place: usize) -> Typing<'a, S>
        ensures { result ≡ record self.now { site = record self.now.site { place = place } } }
    {
        Typing {
            site: Site { place, ..self.site },
            system: self.system,
        }
    }

    // The same under one more binder, which costs 1: of that type and the binding, if there is one.
    pub(crate) fn under(
        &self,
        arena: &mut Arena,
        kind: usize,
        value: Option<usize>,
    ) -> Result<Typing<'a, S>, Spent>
        requires here { Within self.now.site arena.old }
        requires kind { kind < cells_in arena.old }
        requires value { over value ≤ cells_in arena.old }
        ensures site { Enters self.now.site (record { type = term arena.old kind; value = bound value (term arena.old) }) arena.old arena.new (result_map_both (λ t. t.site) (λ e. e) result) }
        ensures system { IfOk result (λ t. S.SortSystem.answers t.system.now ≡ S.SortSystem.answers self.now.system.now) }
    {
        let site = self.site.enter(arena, Some(kind), value)?;
        Ok(Typing {
            site,
            system: self.system,
        })
    }

    // A refusal of the term that is typed.
    pub(crate) fn refused(&self, reason: Reason) -> Fault
        ensures { result ≡ fault.Refused (refusal reason (typing self.now.site.place)) }
    {
        refused(reason, self.site.place)
    }

    // The parts of a term that must have this form.
    pub(crate) fn expect(
        &self,
        arena: &Arena,
        form: Binary,
        id: usize,
    ) -> Result<(usize, usize), Fault>
        requires { id < cells_in arena.now }
        ensures is { Expects arena.now self.now.site.place form id result }
        ensures leads { (X : System) (es : List Entry) → Leads X es (typing self.now.site.place) (expect (parts form (term arena.now id))) (pair arena.now) tips arena.now arena.now result }
    {
        parts(arena, form, id).ok_or(self.refused(Reason::OtherForm))
    }

    // The term without the `n` nearest binders.
    pub(crate) fn lowered(&self, arena: &mut Arena, n: u32, id: usize) -> Result<usize, Fault>
        ensures { (X : System) (es : List Entry) → Leads X es (typing self.now.site.place) (lowering n (term arena.old id)) (term arena.new) suc arena.old arena.new result }
    {
        arena.lower(n, id)?.ok_or(self.refused(Reason::Escapes))
    }

    // The sort with which the system has answered a question.
    pub(crate) fn answered(&self, arena: &mut Arena, answer: Option<u16>) -> Result<usize, Fault>
        requires { HasSpare arena.old }
        ensures { (X : System) (es : List Entry) (q : Question) → X q ≡ answer → Ran X es (typing self.now.site.place) (ask q (sort_gets self.now.site.place)) arena.old arena.new result }
    {
        let sort = answer.ok_or(self.refused(Reason::NoSort))?;
        Ok(arena.add(Node::Sort(self.site.place, sort)))
    }

    // The type of a local.
    pub(crate) fn local(&self, arena: &mut Arena, k: u64) -> Result<usize, Fault>
        requires { Within self.now.site arena.old }
        ensures { (X : System) → Applies X self.now.site (λ es p Γ. has_local Γ k) arena.old arena.new result }
    {
        let binder = arena
            .binder(self.site.context, k)
            .ok_or(self.refused(Reason::OtherForm))?;
        match binder.kind {
            Some(kind) => Ok(arena.lift(k as u32 + 1, kind)?),
            None => Ok(arena.make(Node::Sort(0, 0))?),
        }
    }

    // The type of an entry, shared.
    pub(crate) fn entry(&self, arena: &Arena, j: usize) -> Result<usize, Fault>
        requires { Within self.now.site arena.now }
        ensures { (X : System) → Applies X self.now.site (λ es p Γ. has_entry es j) arena.now arena.now result }
    {
        let row = self.site.entry(j).ok_or(self.refused(Reason::OtherForm))?;
        Ok(row.kind)
    }
}
