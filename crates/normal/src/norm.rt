//! The rules of normal forms, a function for each: what is left of the budget falls at each use.
ghost use Rattle.std.specs.Prelude.{◌≡◌, ℕ, suc, ◌+◌, ◌-◌, ◌*◌, ◌^◌, ◌<◌, ◌≤◌, All, map};
ghost use Rattle.term.specs.Cells.{reach, high, over};
ghost use Rattle.term.specs.State.{term, cells_in, HasSpare};
ghost use Rattle.rules.specs.Rules.{gives_local, gives_entry, gives_fun, gives_under, gives_beside, gives_wrap};
ghost use Rattle.rules.specs.Rules.{gives_filled, gives_use, gives_app, gives_let};
ghost use Rattle.rules.specs.Rules.{gives_deep, gives_open, gives_unpack, gives_arms, gives_pick, gives_match, gives_one, gives_two};

use crate::halt::Halt;
use crate::look::{Side, part, parts};
use crate::site::Site;
use term::arena::Arena;
use term::node::{Binary, Node, Unary};

// Stays: sites nest and share one arena, so no site holds it, and each contract says what is there and what is paid for.
impl<'a> Site<'a> {
    ghost use Rattle.normal.specs.Views.{Within, gives_side};
    ghost use Rattle.normal.specs.Runs.{Normalises, Applies, Keeps};

    // A local: its binding, lifted, or itself.
    fn local(&self, arena: &mut Arena, k: u64, id: usize) -> Result<usize, Halt>
        requires here { Within self.now arena.old }
        requires id { id < cells_in arena.old }
        ensures { Applies self.now (λ es p Δ. gives_local Δ k (term arena.old id)) arena.old arena.new result }
    {
        let binder = arena
            .binder(self.context, k)
            .ok_or(Halt::Stuck(self.place))?;
        match binder.value {
            Some(value) => Ok(arena.lift(k as u32 + 1, value)?),
            None => Ok(id),
        }
    }

    // An entry: its value, shared, or itself.
    fn shared(&self, arena: &Arena, j: usize, id: usize) -> Result<usize, Halt>
        requires here { Within self.now arena.now }
        requires id { id < cells_in arena.now }
        ensures { Applies self.now (λ es p Δ. gives_entry es j (term arena.now id)) arena.now arena.now result }
    {
        let row = self.entry(j).ok_or(Halt::Stuck(self.place))?;
        Ok(row.value.unwrap_or(id))
    }

    // Nothing, if the form is neutral; else no rule fits.
    fn keep(&self, arena: &Arena, id: usize) -> Result<(), Halt>
        ensures { Keeps self.now arena.now (term arena.now id) result }
    {
        if self.is_neutral(arena, id) {
            Ok(())
        } else {
            Err(Halt::Stuck(self.place))
        }
    }

    // The normal form of the tree.
    #[cycle(norm)]
    pub fn norm(&self, arena: &mut Arena, id: usize) -> Result<usize, Halt>
        requires here { Within self.now arena.old }
        requires id { id < cells_in arena.old }
        ensures { Normalises self.now (term arena.old id) arena.old arena.new result }
    {
        arena.spend(1)?;
        match arena.at(id) {
            Node::Local(_, k) => self.local(arena, k, id),
            Node::Entry(_, j) => self.shared(arena, j, id),
            Node::One(_, form, a) => self.one(arena, form, a),
            Node::Two(_, form, a, b) => self.two(arena, form, a, b),
            Node::Match(_, a, f, g) => self.choose(arena, a, f, g),
            Node::Sort(_, _) => Ok(id),
        }
    }

    // A unary form.
    #[cycle(norm)]
    fn one(&self, arena: &mut Arena, form: Unary, a: usize) -> Result<usize, Halt>
        requires here { Within self.now arena.old }
        requires a { a < cells_in arena.old }
        requires paid { HasSpare arena.old }
        ensures { Applies self.now (λ es p Δ. gives_one es p Δ form (term arena.old a)) arena.old arena.new result }
    {
        match form {
            Unary::Fun => self.fun(arena, a),
            Unary::Fst => self.projection(arena, Side::First, a),
            Unary::Snd => self.projection(arena, Side::Second, a),
            Unary::Inl | Unary::Inr => self.wrap(arena, form, a),
        }
    }

    // A binary form.
    #[cycle(norm)]
    fn two(&self, arena: &mut Arena, form: Binary, a: usize, b: usize) -> Result<usize, Halt>
        requires here { Within self.now arena.old }
        requires a { a < cells_in arena.old }
        requires b { b < cells_in arena.old }
        requires paid { HasSpare arena.old }
        ensures { Applies self.now (λ es p Δ. gives_two es p Δ form (term arena.old a) (term arena.old b)) arena.old arena.new result }
    {
        match form {
            Binary::Pi | Binary::Sigma | Binary::Exists => self.under(arena, form, a, b),
            Binary::Typed => self.fun(arena, b),
            Binary::App => self.app(arena, a, b),
            Binary::Pair | Binary::Pack | Binary::Sum => self.beside(arena, form, a, b),
            Binary::Ascribe => self.norm(arena, a),
            Binary::Let => self.bind(arena, a, b),
            Binary::Unpack => self.unpack(arena, a, b),
        }
    }

    // A function: its body.
    #[cycle(norm)]
    fn fun(&self, arena: &mut Arena, a: usize) -> Result<usize, Halt>
        requires here { Within self.now arena.old }
        requires a { a < cells_in arena.old }
        requires paid { HasSpare arena.old }
        ensures { Applies self.now (λ es p Δ. gives_fun p Δ (term arena.old a)) arena.old arena.new result }
    {
        let inner = self.inside(arena)?;
        let body = inner.norm(arena, a)?;
        Ok(arena.add(Node::One(self.place, Unary::Fun, body)))
    }

    // A type with a binder: both parts.
    #[cycle(norm)]
    fn under(&self, arena: &mut Arena, form: Binary, a: usize, b: usize) -> Result<usize, Halt>
        requires here { Within self.now arena.old }
        requires a { a < cells_in arena.old }
        requires b { b < cells_in arena.old }
        requires paid { HasSpare arena.old }
        ensures { Applies self.now (λ es p Δ. gives_under p Δ form (term arena.old a) (term arena.old b)) arena.old arena.new result }
    {
        let domain = self.norm(arena, a)?;
        let inner = self.inside(arena)?;
        let body = inner.norm(arena, b)?;
        Ok(arena.add(Node::Two(self.place, form, domain, body)))
    }

    // Two parts with no binder.
    #[cycle(norm)]
    fn beside(&self, arena: &mut Arena, form: Binary, a: usize, b: usize) -> Result<usize, Halt>
        requires here { Within self.now arena.old }
        requires a { a < cells_in arena.old }
        requires b { b < cells_in arena.old }
        requires paid { HasSpare arena.old }
        ensures { Applies self.now (λ es p Δ. gives_beside p Δ form (term arena.old a) (term arena.old b)) arena.old arena.new result }
    {
        let first = self.norm(arena, a)?;
        let second = self.norm(arena, b)?;
        Ok(arena.add(Node::Two(self.place, form, first, second)))
    }

    // One part with no binder.
    #[cycle(norm)]
    fn wrap(&self, arena: &mut Arena, form: Unary, a: usize) -> Result<usize, Halt>
        requires here { Within self.now arena.old }
        requires a { a < cells_in arena.old }
        requires paid { HasSpare arena.old }
        ensures { Applies self.now (λ es p Δ. gives_wrap p Δ form (term arena.old a)) arena.old arena.new result }
    {
        let inner = self.norm(arena, a)?;
        Ok(arena.add(Node::One(self.place, form, inner)))
    }

    // An application: head, argument, then the form of the head.
    #[cycle(norm)]
    fn app(&self, arena: &mut Arena, a: usize, b: usize) -> Result<usize, Halt>
        requires here { Within self.now arena.old }
        requires a { a < cells_in arena.old }
        requires b { b < cells_in arena.old }
        requires paid { HasSpare arena.old }
        ensures { Applies self.now (λ es p Δ. gives_app es p Δ (term arena.old a) (term arena.old b)) arena.old arena.new result }
    {
        let head = self.norm(arena, a)?;
        let argument = self.norm(arena, b)?;
        self.apply(arena, head, argument)
    }

    // A form used on a form.
    #[cycle(norm)]
    fn apply(&self, arena: &mut Arena, f: usize, v: usize) -> Result<usize, Halt>
        requires here { Within self.now arena.old }
        requires f { f < cells_in arena.old }
        requires v { v < cells_in arena.old }
        requires paid { HasSpare arena.old }
        ensures { Applies self.now (λ es p Δ. gives_use es p Δ (term arena.old f) (term arena.old v)) arena.old arena.new result }
    {
        match part(arena, Unary::Fun, f) {
            Some(body) => self.fill(arena, &[v], body),
            None => {
                self.keep(arena, f)?;
                Ok(arena.add(Node::Two(self.place, Binary::App, f, v)))
            }
        }
    }

    // Forms put into a body, and its form.
    #[cycle(norm)]
    fn fill(&self, arena: &mut Arena, args: &[usize], b: usize) -> Result<usize, Halt>
        requires here { Within self.now arena.old }
        requires args { All (λ i. i < cells_in arena.old) args.now }
        requires paid { HasSpare arena.old }
        ensures { Applies self.now (λ es p Δ. gives_filled p Δ (map (term arena.old) args.now) (term arena.old b)) arena.old arena.new result }
    {
        let filled = arena.put(args, b)?;
        self.norm(arena, filled)
    }

    // A let: its binding's form put into its body.
    #[cycle(norm)]
    fn bind(&self, arena: &mut Arena, a: usize, b: usize) -> Result<usize, Halt>
        requires here { Within self.now arena.old }
        requires a { a < cells_in arena.old }
        requires b { b < cells_in arena.old }
        requires paid { HasSpare arena.old }
        ensures { Applies self.now (λ es p Δ. gives_let p Δ (term arena.old a) (term arena.old b)) arena.old arena.new result }
    {
        let value = self.norm(arena, a)?;
        self.fill(arena, &[value], b)
    }

    // A part of a pair.
    #[cycle(norm)]
    fn projection(&self, arena: &mut Arena, side: Side, a: usize) -> Result<usize, Halt>
        requires here { Within self.now arena.old }
        requires a { a < cells_in arena.old }
        requires paid { HasSpare arena.old }
        ensures { Applies self.now (λ es p Δ. gives_side side es p Δ (term arena.old a)) arena.old arena.new result }
    {
        let whole = self.norm(arena, a)?;
        match parts(arena, Binary::Pair, whole) {
            Some(pair) => Ok(side.of(pair)),
            None => {
                self.keep(arena, whole)?;
                Ok(arena.add(Node::One(self.place, side.projection(), whole)))
            }
        }
    }

    // An unpack: the form of what is unpacked, then its body.
    #[cycle(norm)]
    fn unpack(&self, arena: &mut Arena, a: usize, b: usize) -> Result<usize, Halt>
        requires here { Within self.now arena.old }
        requires a { a < cells_in arena.old }
        requires b { b < cells_in arena.old }
        requires paid { HasSpare arena.old }
        ensures { Applies self.now (λ es p Δ. gives_unpack es p Δ (term arena.old a) (term arena.old b)) arena.old arena.new result }
    {
        let whole = self.norm(arena, a)?;
        self.open(arena, whole, b)
    }

    // A form unpacked in a body.
    #[cycle(norm)]
    fn open(&self, arena: &mut Arena, v: usize, b: usize) -> Result<usize, Halt>
        requires here { Within self.now arena.old }
        requires v { v < cells_in arena.old }
        requires b { b < cells_in arena.old }
        requires paid { HasSpare arena.old }
        ensures { Applies self.now (λ es p Δ. gives_open es p Δ (term arena.old v) (term arena.old b)) arena.old arena.new result }
    {
        match parts(arena, Binary::Pack, v) {
            Some((first, second)) => self.fill(arena, &[second, first], b),
            None => {
                self.keep(arena, v)?;
                self.deep(arena, v, b)
            }
        }
    }

    // A neutral unpacked: the body's form under two binders.
    #[cycle(norm)]
    fn deep(&self, arena: &mut Arena, v: usize, b: usize) -> Result<usize, Halt>
        requires here { Within self.now arena.old }
        requires v { v < cells_in arena.old }
        requires b { b < cells_in arena.old }
        requires paid { HasSpare arena.old }
        ensures { Applies self.now (λ es p Δ. gives_deep p Δ (term arena.old v) (term arena.old b)) arena.old arena.new result }
    {
        let outer = self.inside(arena)?;
        let inner = outer.inside(arena)?;
        let body = inner.norm(arena, b)?;
        Ok(arena.add(Node::Two(self.place, Binary::Unpack, v, body)))
    }

    // A match: the form of what is matched, then an arm.
    #[cycle(norm)]
    fn choose(&self, arena: &mut Arena, a: usize, f: usize, g: usize) -> Result<usize, Halt>
        requires here { Within self.now arena.old }
        requires a { a < cells_in arena.old }
        requires f { f < cells_in arena.old }
        requires g { g < cells_in arena.old }
        requires paid { HasSpare arena.old }
        ensures { Applies self.now (λ es p Δ. gives_match es p Δ (term arena.old a) (term arena.old f) (term arena.old g)) arena.old arena.new result }
    {
        let whole = self.norm(arena, a)?;
        self.pick(arena, whole, f, g)
    }

    // The arm of a form, or both.
    #[cycle(norm)]
    fn pick(&self, arena: &mut Arena, v: usize, f: usize, g: usize) -> Result<usize, Halt>
        requires here { Within self.now arena.old }
        requires v { v < cells_in arena.old }
        requires f { f < cells_in arena.old }
        requires g { g < cells_in arena.old }
        requires paid { HasSpare arena.old }
        ensures { Applies self.now (λ es p Δ. gives_pick es p Δ (term arena.old v) (term arena.old f) (term arena.old g)) arena.old arena.new result }
    {
        match (part(arena, Unary::Inl, v), part(arena, Unary::Inr, v)) {
            (Some(left), _) => self.fill(arena, &[left], f),
            (None, Some(right)) => self.fill(arena, &[right], g),
            (None, None) => {
                self.keep(arena, v)?;
                self.arms(arena, v, f, g)
            }
        }
    }

    // A neutral matched: both arms' forms.
    #[cycle(norm)]
    fn arms(&self, arena: &mut Arena, v: usize, f: usize, g: usize) -> Result<usize, Halt>
        requires here { Within self.now arena.old }
        requires v { v < cells_in arena.old }
        requires f { f < cells_in arena.old }
        requires g { g < cells_in arena.old }
        requires paid { HasSpare arena.old }
        ensures { Applies self.now (λ es p Δ. gives_arms p Δ (term arena.old v) (term arena.old f) (term arena.old g)) arena.old arena.new result }
    {
        let left_site = self.inside(arena)?;
        let left = left_site.norm(arena, f)?;
        let right_site = self.inside(arena)?;
        let right = right_site.norm(arena, g)?;
        Ok(arena.add(Node::Match(self.place, v, left, right)))
    }
}
