//! The rules of types, a function for each: what is left of the budget falls at each use.
ghost use Rattle.std.specs.Prelude.{◌≡◌, ℕ, suc, ◌+◌, ◌-◌, ◌*◌, ◌^◌, ◌<◌, ◌≤◌, List, [], ◌∷◌, Some, None, All};
ghost use Rattle.term.specs.Cells.{form, reach, high, over};
ghost use Rattle.term.specs.State.{term, cells_in, HasSpare};
ghost use Rattle.rules.specs.Rules.{Premises, has, meets, has_a_sort, has_parts, arm, has_former, has_sum, has_typed, has_app};
ghost use Rattle.rules.specs.Rules.{has_first, has_second, has_unpack, has_let, has_ascription, has_ascribed, has_match, has_one, has_two};
ghost use Rattle.rules.specs.Rules.{meets_fun, meets_pair, meets_equal, meets_one, meets_two};
ghost use Rattle.normal.specs.Views.{Within, context_at};
ghost use Rattle.kernel.specs.Runs.{JudgesAt, Applies, Begins, pair, tips, sorted, none, meets_side};

use crate::fault::{Fault, refused};
use crate::steps::{as_sort, unruled};
use normal::look::Side;
use normal::site::Site;
use rules::refusal::Reason;
use sorts::SortSystem;
use term::arena::Arena;
use term::node::{Binary, Node, Unary};

// Where a term is typed, and the system that answers for its sorts.
#[derive_where(Clone, Copy)]
pub struct Typing<'a, S> {
    pub site: Site<'a>,
    pub system: &'a S,
}

// Stays: sites nest and share one arena, so no site holds it, and each contract says what is there and what is paid for.
impl<'a, S: SortSystem> Typing<'a, S> {
    // The type that a term has.
    #[cycle(typing)]
    pub fn infer(&self, arena: &mut Arena, id: usize) -> Result<usize, Fault>
        requires here { Within self.now.site arena.old }
        requires id { id < cells_in arena.old }
        ensures { JudgesAt (S.SortSystem.answers self.now.system.now) self.now.site (λ Γ. has Γ (term arena.old id)) arena.old arena.new result }
    {
        if let Some(place) = unruled(arena, id) {
            return Err(refused(Reason::NoRule, place));
        }
        arena.spend(1)?;
        match arena.at(id) {
            Node::Sort(place, sort) => self.at(place).answered(arena, self.system.above(sort)),
            Node::Local(place, k) => self.at(place).local(arena, k),
            Node::Entry(place, j) => self.at(place).entry(arena, j),
            Node::One(place, form, a) => self.at(place).one(arena, form, a),
            Node::Two(place, form, a, b) => self.at(place).two(arena, form, a, b),
            Node::Match(place, a, f, g) => self.at(place).choose(arena, a, f, g),
        }
    }

    // Whether a term meets a type, which is then the answer.
    #[cycle(typing)]
    pub fn check(&self, arena: &mut Arena, id: usize, want: usize) -> Result<usize, Fault>
        requires here { Within self.now.site arena.old }
        requires id { id < cells_in arena.old }
        requires want { want < cells_in arena.old }
        ensures { JudgesAt (S.SortSystem.answers self.now.system.now) self.now.site (λ Γ. meets Γ (term arena.old id) (term arena.old want)) arena.old arena.new result }
    {
        arena.spend(1)?;
        match arena.at(id) {
            Node::One(place, form, a) => self.at(place).meet_one(arena, id, form, a, want),
            Node::Two(place, form, a, b) => self.at(place).meet_two(arena, id, form, a, b, want),
            Node::Sort(place, _)
            | Node::Local(place, _)
            | Node::Entry(place, _)
            | Node::Match(place, _, _, _) => { self.at(place).equal(arena, id, want) }
        }
    }

    // The sort that is the type of a term.
    #[cycle(typing)]
    pub(crate) fn sort(&self, arena: &mut Arena, id: usize) -> Result<u16, Fault>
        requires here { Within self.now.site arena.old }
        requires id { id < cells_in arena.old }
        ensures { Begins (S.SortSystem.answers self.now.system.now) self.now.site (λ Γ. has_a_sort Γ (term arena.old id)) sorted none arena.old arena.new result }
    {
        let kind = self.infer(arena, id)?;
        as_sort(arena, kind).ok_or(self.refused(Reason::OtherForm))
    }

    // The parts of the type that a term has, which must be of the form named.
    // Stays: apart from `sort`, which asks for another form, by a premise of its own.
    #[cycle(typing)]
    fn split(&self, arena: &mut Arena, form: Binary, id: usize) -> Result<(usize, usize), Fault>
        requires here { Within self.now.site arena.old }
        requires id { id < cells_in arena.old }
        ensures { Begins (S.SortSystem.answers self.now.system.now) self.now.site (λ Γ. has_parts Γ form (term arena.old id)) (pair arena.new) tips arena.old arena.new result }
    {
        let kind = self.infer(arena, id)?;
        self.expect(arena, form, kind)
    }

    // The type of an arm under the type of what it matches, without that binder.
    #[cycle(typing)]
    fn arm(&self, arena: &mut Arena, kind: usize, id: usize) -> Result<usize, Fault>
        requires here { Within self.now.site arena.old }
        requires kind { kind < cells_in arena.old }
        requires id { id < cells_in arena.old }
        ensures { Begins (S.SortSystem.answers self.now.system.now) self.now.site (λ Γ. arm Γ (term arena.old kind) (term arena.old id)) (term arena.new) suc arena.old arena.new result }
    {
        let inner = self.under(arena, kind, None)?;
        let found = inner.infer(arena, id)?;
        self.lowered(arena, 1, found)
    }

    // A form with one part.
    #[cycle(typing)]
    fn one(&self, arena: &mut Arena, form: Unary, a: usize) -> Result<usize, Fault>
        requires here { Within self.now.site arena.old }
        requires a { a < cells_in arena.old }
        requires paid { HasSpare arena.old }
        ensures { (c : Premises) → has_one self.now.site.place (context_at self.now.site arena.old) form (term arena.old a) ≡ Some c → Applies (S.SortSystem.answers self.now.system.now) self.now.site (λ es p Γ. c) arena.old arena.new result }
    {
        match form {
            Unary::Fst => self.first(arena, a),
            Unary::Snd => self.second(arena, a),
            Unary::Fun | Unary::Inl | Unary::Inr => Err(self.refused(Reason::NoRule)),
        }
    }

    // A form with two parts.
    #[cycle(typing)]
    fn two(&self, arena: &mut Arena, form: Binary, a: usize, b: usize) -> Result<usize, Fault>
        requires here { Within self.now.site arena.old }
        requires a { a < cells_in arena.old }
        requires b { b < cells_in arena.old }
        requires paid { HasSpare arena.old }
        ensures { (c : Premises) → has_two self.now.site.place (context_at self.now.site arena.old) form (term arena.old a) (term arena.old b) ≡ Some c → Applies (S.SortSystem.answers self.now.system.now) self.now.site (λ es p Γ. c) arena.old arena.new result }
    {
        match form {
            Binary::Pi | Binary::Sigma | Binary::Exists => self.former(arena, a, b),
            Binary::Typed => self.lambda(arena, a, b),
            Binary::App => self.app(arena, a, b),
            Binary::Unpack => self.open(arena, a, b),
            Binary::Sum => self.sum(arena, a, b),
            Binary::Ascribe => self.ascribe(arena, a, b),
            Binary::Let => self.bind(arena, a, b),
            Binary::Pair | Binary::Pack => Err(self.refused(Reason::NoRule)),
        }
    }

    // The types with a binder.
    #[cycle(typing)]
    fn former(&self, arena: &mut Arena, a: usize, b: usize) -> Result<usize, Fault>
        requires here { Within self.now.site arena.old }
        requires a { a < cells_in arena.old }
        requires b { b < cells_in arena.old }
        requires paid { HasSpare arena.old }
        ensures { Applies (S.SortSystem.answers self.now.system.now) self.now.site (λ es p Γ. has_former p Γ (term arena.old a) (term arena.old b)) arena.old arena.new result }
    {
        let domain_sort = self.sort(arena, a)?;
        let domain = self.site.norm(arena, a)?;
        let inner = self.under(arena, domain, None)?;
        let body_sort = inner.sort(arena, b)?;
        self.answered(arena, self.system.join(domain_sort, body_sort))
    }

    // A sum.
    #[cycle(typing)]
    fn sum(&self, arena: &mut Arena, a: usize, b: usize) -> Result<usize, Fault>
        requires here { Within self.now.site arena.old }
        requires a { a < cells_in arena.old }
        requires b { b < cells_in arena.old }
        requires paid { HasSpare arena.old }
        ensures { Applies (S.SortSystem.answers self.now.system.now) self.now.site (λ es p Γ. has_sum p Γ (term arena.old a) (term arena.old b)) arena.old arena.new result }
    {
        let left = self.sort(arena, a)?;
        let right = self.sort(arena, b)?;
        self.answered(arena, self.system.join(left, right))
    }

    // A typed function.
    #[cycle(typing)]
    fn lambda(&self, arena: &mut Arena, a: usize, b: usize) -> Result<usize, Fault>
        requires here { Within self.now.site arena.old }
        requires a { a < cells_in arena.old }
        requires b { b < cells_in arena.old }
        requires paid { HasSpare arena.old }
        ensures { Applies (S.SortSystem.answers self.now.system.now) self.now.site (λ es p Γ. has_typed p Γ (term arena.old a) (term arena.old b)) arena.old arena.new result }
    {
        self.sort(arena, a)?;
        let domain = self.site.norm(arena, a)?;
        let inner = self.under(arena, domain, None)?;
        let codomain = inner.infer(arena, b)?;
        Ok(arena.add(Node::Two(self.site.place, Binary::Pi, domain, codomain)))
    }

    // An application: the argument itself is put in, not its form.
    #[cycle(typing)]
    fn app(&self, arena: &mut Arena, a: usize, b: usize) -> Result<usize, Fault>
        requires here { Within self.now.site arena.old }
        requires a { a < cells_in arena.old }
        requires b { b < cells_in arena.old }
        ensures { Applies (S.SortSystem.answers self.now.system.now) self.now.site (λ es p Γ. has_app p Γ (term arena.old a) (term arena.old b)) arena.old arena.new result }
    {
        let (domain, codomain) = self.split(arena, Binary::Pi, a)?;
        self.check(arena, b, domain)?;
        let filled = arena.put(&[b], codomain)?;
        Ok(self.site.norm(arena, filled)?)
    }

    // The first part of a pair.
    #[cycle(typing)]
    fn first(&self, arena: &mut Arena, a: usize) -> Result<usize, Fault>
        requires here { Within self.now.site arena.old }
        requires a { a < cells_in arena.old }
        ensures { Applies (S.SortSystem.answers self.now.system.now) self.now.site (λ es p Γ. has_first Γ (term arena.old a)) arena.old arena.new result }
    {
        let (first, _) = self.split(arena, Binary::Sigma, a)?;
        Ok(first)
    }

    // The second part of a pair: the first part itself is put in.
    #[cycle(typing)]
    fn second(&self, arena: &mut Arena, a: usize) -> Result<usize, Fault>
        requires here { Within self.now.site arena.old }
        requires a { a < cells_in arena.old }
        requires paid { HasSpare arena.old }
        ensures { Applies (S.SortSystem.answers self.now.system.now) self.now.site (λ es p Γ. has_second p Γ (term arena.old a)) arena.old arena.new result }
    {
        let (_, second) = self.split(arena, Binary::Sigma, a)?;
        let first = arena.add(Node::One(self.site.place, Unary::Fst, a));
        let filled = arena.put(&[first], second)?;
        Ok(self.site.norm(arena, filled)?)
    }

    // A pack that is unpacked.
    #[cycle(typing)]
    fn open(&self, arena: &mut Arena, a: usize, b: usize) -> Result<usize, Fault>
        requires here { Within self.now.site arena.old }
        requires a { a < cells_in arena.old }
        requires b { b < cells_in arena.old }
        ensures { Applies (S.SortSystem.answers self.now.system.now) self.now.site (λ es p Γ. has_unpack Γ (term arena.old a) (term arena.old b)) arena.old arena.new result }
    {
        let (first, second) = self.split(arena, Binary::Exists, a)?;
        let outer = self.under(arena, first, None)?;
        let inner = outer.under(arena, second, None)?;
        let found = inner.infer(arena, b)?;
        self.lowered(arena, 2, found)
    }

    // A let: the body under its binding.
    #[cycle(typing)]
    fn bind(&self, arena: &mut Arena, a: usize, b: usize) -> Result<usize, Fault>
        requires here { Within self.now.site arena.old }
        requires a { a < cells_in arena.old }
        requires b { b < cells_in arena.old }
        ensures { Applies (S.SortSystem.answers self.now.system.now) self.now.site (λ es p Γ. has_let p Γ (term arena.old a) (term arena.old b)) arena.old arena.new result }
    {
        let kind = self.infer(arena, a)?;
        let value = self.site.norm(arena, a)?;
        let inner = self.under(arena, kind, Some(value))?;
        let found = inner.infer(arena, b)?;
        self.lowered(arena, 1, found)
    }

    // An ascription, by a sort or by another type.
    #[cycle(typing)]
    fn ascribe(&self, arena: &mut Arena, a: usize, b: usize) -> Result<usize, Fault>
        requires here { Within self.now.site arena.old }
        requires a { a < cells_in arena.old }
        requires b { b < cells_in arena.old }
        ensures { Applies (S.SortSystem.answers self.now.system.now) self.now.site (λ es p Γ. has_ascription p Γ (term arena.old a) (term arena.old b)) arena.old arena.new result }
    {
        match as_sort(arena, b) {
            Some(_) => {
                self.check(arena, a, b)?;
                Ok(b)
            }
            None => self.ascribed(arena, a, b),
        }
    }

    // An ascription by a type that is no sort.
    #[cycle(typing)]
    fn ascribed(&self, arena: &mut Arena, a: usize, b: usize) -> Result<usize, Fault>
        requires here { Within self.now.site arena.old }
        requires a { a < cells_in arena.old }
        requires b { b < cells_in arena.old }
        ensures { Applies (S.SortSystem.answers self.now.system.now) self.now.site (λ es p Γ. has_ascribed p Γ (term arena.old a) (term arena.old b)) arena.old arena.new result }
    {
        self.sort(arena, b)?;
        let kind = self.site.norm(arena, b)?;
        self.check(arena, a, kind)?;
        Ok(kind)
    }

    // A match: both arms have the same type.
    #[cycle(typing)]
    fn choose(&self, arena: &mut Arena, a: usize, f: usize, g: usize) -> Result<usize, Fault>
        requires here { Within self.now.site arena.old }
        requires a { a < cells_in arena.old }
        requires f { f < cells_in arena.old }
        requires g { g < cells_in arena.old }
        ensures { Applies (S.SortSystem.answers self.now.system.now) self.now.site (λ es p Γ. has_match Γ (term arena.old a) (term arena.old f) (term arena.old g)) arena.old arena.new result }
    {
        let (left, right) = self.split(arena, Binary::Sum, a)?;
        let first = self.arm(arena, left, f)?;
        let second = self.arm(arena, right, g)?;
        if arena.equal(first, second) {
            Ok(first)
        } else {
            Err(self.refused(Reason::Unequal))
        }
    }

    // A form with one part, against a type.
    #[cycle(typing)]
    fn meet_one(
        &self,
        arena: &mut Arena,
        id: usize,
        form: Unary,
        a: usize,
        want: usize,
    ) -> Result<usize, Fault>
        requires here { Within self.now.site arena.old }
        requires id { id < cells_in arena.old }
        requires a { a < cells_in arena.old }
        requires want { want < cells_in arena.old }
        ensures { Applies (S.SortSystem.answers self.now.system.now) self.now.site (λ es p Γ. meets_one Γ (term arena.old id) form (term arena.old a) (term arena.old want)) arena.old arena.new result }
    {
        match form {
            Unary::Fun => self.fun(arena, a, want),
            Unary::Inl => self.injection(arena, Side::First, a, want),
            Unary::Inr => self.injection(arena, Side::Second, a, want),
            Unary::Fst | Unary::Snd => self.equal(arena, id, want),
        }
    }

    // A form with two parts, against a type.
    #[cycle(typing)]
    fn meet_two(
        &self,
        arena: &mut Arena,
        id: usize,
        form: Binary,
        a: usize,
        b: usize,
        want: usize,
    ) -> Result<usize, Fault>
        requires here { Within self.now.site arena.old }
        requires id { id < cells_in arena.old }
        requires a { a < cells_in arena.old }
        requires b { b < cells_in arena.old }
        requires want { want < cells_in arena.old }
        ensures { Applies (S.SortSystem.answers self.now.system.now) self.now.site (λ es p Γ. meets_two p Γ (term arena.old id) form (term arena.old a) (term arena.old b) (term arena.old want)) arena.old arena.new result }
    {
        match form {
            Binary::Pair => self.pair(arena, Binary::Sigma, a, b, want),
            Binary::Pack => self.pair(arena, Binary::Exists, a, b, want),
            _ => self.equal(arena, id, want),
        }
    }

    // A function against a Pi.
    #[cycle(typing)]
    fn fun(&self, arena: &mut Arena, a: usize, want: usize) -> Result<usize, Fault>
        requires here { Within self.now.site arena.old }
        requires a { a < cells_in arena.old }
        requires want { want < cells_in arena.old }
        ensures { Applies (S.SortSystem.answers self.now.system.now) self.now.site (λ es p Γ. meets_fun Γ (term arena.old a) (term arena.old want)) arena.old arena.new result }
    {
        let (domain, codomain) = self.expect(arena, Binary::Pi, want)?;
        let inner = self.under(arena, domain, None)?;
        inner.check(arena, a, codomain)?;
        Ok(want)
    }

    // A pair against a Sigma, or a pack against an Exists.
    #[cycle(typing)]
    fn pair(
        &self,
        arena: &mut Arena,
        form: Binary,
        a: usize,
        b: usize,
        want: usize,
    ) -> Result<usize, Fault>
        requires here { Within self.now.site arena.old }
        requires a { a < cells_in arena.old }
        requires b { b < cells_in arena.old }
        requires want { want < cells_in arena.old }
        ensures { Applies (S.SortSystem.answers self.now.system.now) self.now.site (λ es p Γ. meets_pair form p Γ (term arena.old a) (term arena.old b) (term arena.old want)) arena.old arena.new result }
    {
        let (first, second) = self.expect(arena, form, want)?;
        self.check(arena, a, first)?;
        let filled = arena.put(&[a], second)?;
        let kind = self.site.norm(arena, filled)?;
        self.check(arena, b, kind)?;
        Ok(want)
    }

    // An injection against its side of a sum.
    #[cycle(typing)]
    fn injection(
        &self,
        arena: &mut Arena,
        side: Side,
        a: usize,
        want: usize,
    ) -> Result<usize, Fault>
        requires here { Within self.now.site arena.old }
        requires a { a < cells_in arena.old }
        requires want { want < cells_in arena.old }
        ensures { Applies (S.SortSystem.answers self.now.system.now) self.now.site (λ es p Γ. meets_side side Γ (term arena.old a) (term arena.old want)) arena.old arena.new result }
    {
        let sides = self.expect(arena, Binary::Sum, want)?;
        self.check(arena, a, side.of(sides))?;
        Ok(want)
    }

    // A term that meets a type by having an equal one.
    #[cycle(typing)]
    fn equal(&self, arena: &mut Arena, id: usize, want: usize) -> Result<usize, Fault>
        requires here { Within self.now.site arena.old }
        requires id { id < cells_in arena.old }
        requires want { want < cells_in arena.old }
        ensures { Applies (S.SortSystem.answers self.now.system.now) self.now.site (λ es p Γ. meets_equal Γ (term arena.old id) (term arena.old want)) arena.old arena.new result }
    {
        let kind = self.infer(arena, id)?;
        if arena.equal(kind, want) {
            Ok(want)
        } else {
            Err(self.refused(Reason::Unequal))
        }
    }
}
