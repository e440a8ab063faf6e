//! The grammar of terms: a method for each sign and for each production that needs one. Each reads
//! the words to come, under the open binders, into cells.
ghost use Rattle.std.specs.Prelude.{◌≡◌, ◌<◌, List, ℕ};
ghost use Rattle.term.specs.State.{term, cells_in};
ghost use Rattle.term.specs.Term.{unary};
ghost use Rattle.grammar.specs.Grammar.{expr, sums, products, application, atom, arguments, functions, lets, matches, bracketed, headed};
ghost use Rattle.grammar.specs.Words.{as_token};
ghost use Rattle.syntax.specs.Choices.{chosen, quantifiers, heads, sorts};
ghost use Rattle.syntax.specs.Parses.{now, HoldsSame, HasRoomForNames, AsSign, AsUnder, AsSteps, TypedBinder, Valued, TwoNames, TwoArms, AnArm};
ghost use Rattle.syntax.specs.Parses.{one_name, both_names, bound_steps, arrow_steps, closing_steps, bracket_steps, unpack_steps, pack_steps};

use crate::fault::SyntaxFault;
use crate::parser::{Open, Parser};
use script::statement::Span;
use script::token::{Kind, Lexeme, Mark};
use term::node::{Binary, Node, Unary};

// An unused binder, which no name means.
// Stays: a span of no bytes, since each open binder has a span, and an option would be asked at each search.
const NO_NAME: Span = Span { at: 0, len: 0 };

// What a lexeme quantifies by, if it begins such a form.
// Stays: three tables of three types, a `match` each; as arrays they would need a search as well.
fn quantifier(l: Lexeme) -> Option<Binary>
    ensures { (x : List ℕ) → result ≡ chosen quantifiers (as_token l.kind x) }
{
    match l.kind {
        Kind::Fixed(Mark::PiWord | Mark::ForallWord) => Some(Binary::Pi),
        Kind::Fixed(Mark::SigmaWord) => Some(Binary::Sigma),
        Kind::Fixed(Mark::ExistsWord) => Some(Binary::Exists),
        _ => None,
    }
}

// What a lexeme puts over the atom after it, if it is such a word.
fn head(l: Lexeme) -> Option<Unary>
    ensures { (x : List ℕ) → result ≡ chosen heads (as_token l.kind x) }
{
    match l.kind {
        Kind::Fixed(Mark::FstWord) => Some(Unary::Fst),
        Kind::Fixed(Mark::SndWord) => Some(Unary::Snd),
        Kind::Fixed(Mark::InlWord) => Some(Unary::Inl),
        Kind::Fixed(Mark::InrWord) => Some(Unary::Inr),
        _ => None,
    }
}

// The level of the sort that a lexeme names, if it names one.
fn sort(l: Lexeme) -> Option<u16>
    ensures { (x : List ℕ) → result ≡ chosen sorts (as_token l.kind x) }
{
    match l.kind {
        Kind::Fixed(Mark::TypeWord | Mark::PropWord) => Some(0),
        Kind::Fixed(Mark::KindWord) => Some(1),
        _ => None,
    }
}

impl Parser<'_> {
    /// E
    // Stays: here and below each test of the next word begins a production of its own, with its own steps.
    #[cycle(parse)]
    pub fn expr(&mut self) -> Result<usize, SyntaxFault>
        ensures parsed { AsSign 1 expr (now self.old) (now self.new) result }
        ensures same { HoldsSame self.old self.new }
    {
        let place = self.here();
        if self.words.eat(Mark::FunWord) {
            return self.func(place);
        }
        if let Some(binary) = self.words.take(quantifier) {
            return self.bound(place, binary, Mark::Comma);
        }
        if self.words.eat(Mark::LetWord) {
            return self.lets(place);
        }
        self.arrow()
    }

    // x "=>" E, or "(" x ":" E ")" "=>" E
    #[cycle(parse)]
    fn func(&mut self, place: usize) -> Result<usize, SyntaxFault>
        ensures parsed { AsSteps 0 (λ sc. functions sc place) (now self.old) (now self.new) result }
        ensures same { HoldsSame self.old self.new }
    {
        let Some(x) = self.words.name() else {
            return self.bound(place, Binary::Typed, Mark::Maps)
        };
        self.words.expect(Mark::Maps)?;
        let b = self.under(x)?;
        Ok(self.add(Node::One(place, Unary::Fun, b)))
    }

    // "(" x ":" E ")", the mark, and E under x
    #[cycle(parse)]
    fn bound(&mut self, place: usize, binary: Binary, mark: Mark) -> Result<usize, SyntaxFault>
        ensures parsed { AsSteps 0 (bound_steps place binary mark) (now self.old) (now self.new) result }
        ensures same { HoldsSame self.old self.new }
    {
        let (x, t) = self.typed()?;
        self.words.expect(mark)?;
        let b = self.under(x)?;
        Ok(self.add(Node::Two(place, binary, t, b)))
    }

    // "(" x ":" E ")"
    #[cycle(parse)]
    fn typed(&mut self) -> Result<(Span, usize), SyntaxFault>
        ensures parsed { TypedBinder (now self.old) (now self.new) result }
        ensures same { HoldsSame self.old self.new }
    {
        self.words.expect(Mark::Opens)?;
        let x = self.words.binder()?;
        self.words.expect(Mark::Colon)?;
        let t = self.expr()?;
        self.words.expect(Mark::Closes)?;
        Ok((x, t))
    }

    // "{" x "," y "}" ":=" E "in" E, or x [":" E] ":=" E "in" E
    #[cycle(parse)]
    fn lets(&mut self, place: usize) -> Result<usize, SyntaxFault>
        ensures parsed { AsSteps 0 (λ sc. lets sc place) (now self.old) (now self.new) result }
        ensures same { HoldsSame self.old self.new }
    {
        if self.words.eat(Mark::OpensBrace) {
            return self.unpack(place);
        }
        let x = self.words.binder()?;
        let e = self.valued()?;
        self.words.expect(Mark::InWord)?;
        let b = self.under(x)?;
        Ok(self.add(Node::Two(place, Binary::Let, e, b)))
    }

    /// [":" T] ":=" E, the ascription of E to T where T is written
    #[cycle(parse)]
    pub fn valued(&mut self) -> Result<usize, SyntaxFault>
        ensures parsed { Valued (now self.old) (now self.new) result }
        ensures same { HoldsSame self.old self.new }
    {
        if self.words.eat(Mark::Colon) {
            let t = self.expr()?;
            self.words.expect(Mark::Becomes)?;
            let e = self.expr()?;
            let place = self.arena.place(t);
            return Ok(self.add(Node::Two(place, Binary::Ascribe, e, t)));
        }
        self.words.expect(Mark::Becomes)?;
        self.expr()
    }

    // x "," y "}" ":=" E "in" E
    #[cycle(parse)]
    fn unpack(&mut self, place: usize) -> Result<usize, SyntaxFault>
        ensures parsed { AsSteps 0 (unpack_steps place) (now self.old) (now self.new) result }
        ensures same { HoldsSame self.old self.new }
    {
        let (x, y) = self.two_names()?;
        self.words.expect(Mark::Becomes)?;
        let e = self.expr()?;
        self.words.expect(Mark::InWord)?;
        let b = self.under_two(x, y)?;
        Ok(self.add(Node::Two(place, Binary::Unpack, e, b)))
    }

    // x "," y "}"
    fn two_names(&mut self) -> Result<(Span, Span), SyntaxFault>
        ensures parsed { TwoNames (now self.old) (now self.new) result }
        ensures same { HoldsSame self.old self.new }
    {
        let x = self.words.binder()?;
        self.words.expect(Mark::Comma)?;
        let y = self.words.binder()?;
        self.words.expect(Mark::ClosesBrace)?;
        Ok((x, y))
    }

    // sum ["->" E]
    // Stays: apart from `sums` and `prods`, since both operands would be steps passed in, as at `prods_under`.
    #[cycle(parse)]
    fn arrow(&mut self) -> Result<usize, SyntaxFault>
        ensures parsed { AsSteps 1 arrow_steps (now self.old) (now self.new) result }
        ensures same { HoldsSame self.old self.new }
    {
        let e = self.sums()?;
        if !self.words.eat(Mark::Arrow) {
            return Ok(e);
        }
        let f = self.under(NO_NAME)?;
        Ok(self.join(Binary::Pi, e, f))
    }

    // prod ["+" sum]
    #[cycle(parse)]
    fn sums(&mut self) -> Result<usize, SyntaxFault>
        ensures parsed { AsSign 1 sums (now self.old) (now self.new) result }
        ensures same { HoldsSame self.old self.new }
    {
        let e = self.prods()?;
        if !self.words.eat(Mark::Plus) {
            return Ok(e);
        }
        let f = self.sums()?;
        Ok(self.join(Binary::Sum, e, f))
    }

    // app ["*" prod]
    #[cycle(parse)]
    fn prods(&mut self) -> Result<usize, SyntaxFault>
        ensures parsed { AsSign 1 products (now self.old) (now self.new) result }
        ensures same { HoldsSame self.old self.new }
    {
        let e = self.app()?;
        if !self.words.eat(Mark::Times) {
            return Ok(e);
        }
        let f = self.prods_under(NO_NAME)?;
        Ok(self.join(Binary::Sigma, e, f))
    }

    // ["fst" | "snd" | "inl" | "inr"] atom {atom}
    #[cycle(parse)]
    fn app(&mut self) -> Result<usize, SyntaxFault>
        ensures parsed { AsSign 1 application (now self.old) (now self.new) result }
        ensures same { HoldsSame self.old self.new }
    {
        let place = self.here();
        if let Some(unary) = self.words.take(head) {
            return self.headed(place, unary);
        }
        let e = self.atom()?;
        self.apply(e)
    }

    // atom {atom}, the first under the word before it
    #[cycle(parse)]
    fn headed(&mut self, place: usize, word: Unary) -> Result<usize, SyntaxFault>
        ensures parsed { AsSteps 0 (λ sc. headed sc (unary place word)) (now self.old) (now self.new) result }
        ensures same { HoldsSame self.old self.new }
    {
        let e = self.atom()?;
        let h = self.add(Node::One(place, word, e));
        self.apply(h)
    }

    // {atom}, the arguments of e
    // Stays: an operand is an index of the arena, so a contract that takes one says that it is there.
    #[cycle(parse)]
    fn apply(&mut self, e: usize) -> Result<usize, SyntaxFault>
        requires { e < cells_in self.old.arena.now }
        ensures parsed { AsSign 0 (arguments (term self.old.arena.now e)) (now self.old) (now self.new) result }
        ensures same { HoldsSame self.old self.new }
    {
        if !self.begins() {
            return Ok(e);
        }
        let f = self.atom()?;
        let h = self.join(Binary::App, e, f);
        self.apply(h)
    }

    // x, a sort, or what brackets or "match" and "end" hold
    #[cycle(parse)]
    fn atom(&mut self) -> Result<usize, SyntaxFault>
        ensures parsed { AsSign 1 atom (now self.old) (now self.new) result }
        ensures same { HoldsSame self.old self.new }
    {
        let place = self.here();
        if let Some(x) = self.words.name() {
            let node = self.meaning(place, x)?;
            return Ok(self.add(node));
        }
        if let Some(n) = self.words.take(sort) {
            return Ok(self.add(Node::Sort(place, n)));
        }
        if self.words.eat(Mark::SortWord) {
            let n = self.words.count()?;
            return Ok(self.add(Node::Sort(place, n)));
        }
        self.bracket(place)
    }

    // "(" .. ")", "{" .. "}" or "match" .. "end"
    #[cycle(parse)]
    fn bracket(&mut self, place: usize) -> Result<usize, SyntaxFault>
        ensures parsed { AsSteps 1 (bracket_steps place) (now self.old) (now self.new) result }
        ensures same { HoldsSame self.old self.new }
    {
        if self.words.eat(Mark::Opens) {
            return self.group(place);
        }
        if self.words.eat(Mark::OpensBrace) {
            return self.pack(place);
        }
        if self.words.eat(Mark::MatchWord) {
            return self.cases(place);
        }
        Err(self.misfit())
    }

    // E [(":" | ",") E] ")"
    #[cycle(parse)]
    fn group(&mut self, place: usize) -> Result<usize, SyntaxFault>
        ensures parsed { AsSteps 0 (λ sc. bracketed sc place) (now self.old) (now self.new) result }
        ensures same { HoldsSame self.old self.new }
    {
        let e = self.expr()?;
        if self.words.eat(Mark::Colon) {
            return self.closing(place, Binary::Ascribe, Mark::Closes, e);
        }
        if self.words.eat(Mark::Comma) {
            return self.closing(place, Binary::Pair, Mark::Closes, e);
        }
        self.words.expect(Mark::Closes)?;
        Ok(e)
    }

    // E and the mark that closes, beside e
    #[cycle(parse)]
    fn closing(
        &mut self,
        place: usize,
        binary: Binary,
        mark: Mark,
        e: usize,
    ) -> Result<usize, SyntaxFault>
        requires { e < cells_in self.old.arena.now }
        ensures parsed { AsSteps 0 (closing_steps place binary mark (term self.old.arena.now e)) (now self.old) (now self.new) result }
        ensures same { HoldsSame self.old self.new }
    {
        let f = self.expr()?;
        self.words.expect(mark)?;
        Ok(self.add(Node::Two(place, binary, e, f)))
    }

    // E "," E "}"
    #[cycle(parse)]
    fn pack(&mut self, place: usize) -> Result<usize, SyntaxFault>
        ensures parsed { AsSteps 0 (pack_steps place) (now self.old) (now self.new) result }
        ensures same { HoldsSame self.old self.new }
    {
        let e = self.expr()?;
        self.words.expect(Mark::Comma)?;
        self.closing(place, Binary::Pack, Mark::ClosesBrace, e)
    }

    // E "with" arm arm "end", one of each
    #[cycle(parse)]
    fn cases(&mut self, place: usize) -> Result<usize, SyntaxFault>
        ensures parsed { AsSteps 0 (λ sc. matches sc place) (now self.old) (now self.new) result }
        ensures same { HoldsSame self.old self.new }
    {
        let e = self.expr()?;
        self.words.expect(Mark::WithWord)?;
        self.words.expect(Mark::Bar)?;
        if self.words.eat(Mark::InlWord) {
            let (f, g) = self.two_arms(Mark::InrWord)?;
            return Ok(self.add(Node::Match(place, e, f, g)));
        }
        self.words.expect(Mark::InrWord)?;
        let (g, f) = self.two_arms(Mark::InlWord)?;
        Ok(self.add(Node::Match(place, e, f, g)))
    }

    // x "=>" E "|", the mark, y "=>" E "end"
    #[cycle(parse)]
    fn two_arms(&mut self, mark: Mark) -> Result<(usize, usize), SyntaxFault>
        ensures parsed { TwoArms mark (now self.old) (now self.new) result }
        ensures same { HoldsSame self.old self.new }
    {
        let f = self.arm()?;
        self.words.expect(Mark::Bar)?;
        self.words.expect(mark)?;
        let g = self.arm()?;
        self.words.expect(Mark::EndWord)?;
        Ok((f, g))
    }

    // x "=>" E
    #[cycle(parse)]
    fn arm(&mut self) -> Result<usize, SyntaxFault>
        ensures parsed { AnArm (now self.old) (now self.new) result }
        ensures same { HoldsSame self.old self.new }
    {
        let x = self.words.binder()?;
        self.words.expect(Mark::Maps)?;
        self.under(x)
    }

    // E under the binder x, which is closed again however that ends
    // Stays: how many names are opened differs from call to call, so the room for them is asked for here.
    #[cycle(parse)]
    fn under(&mut self, x: Span) -> Result<usize, SyntaxFault>
        requires { HasRoomForNames 1 (now self.old) }
        ensures parsed { AsUnder (one_name x) 1 expr (now self.old) (now self.new) result }
        ensures same { HoldsSame self.old self.new }
    {
        let was = self.open(x);
        let open = Open { parser: self, was };
        open.parser.expr()
    }

    // prod under the binder x
    // Stays: apart from `under`; one function would take the step as `FnOnce(&mut Self)`, a bound that the check refuses here.
    #[cycle(parse)]
    fn prods_under(&mut self, x: Span) -> Result<usize, SyntaxFault>
        requires { HasRoomForNames 1 (now self.old) }
        ensures parsed { AsUnder (one_name x) 1 products (now self.old) (now self.new) result }
        ensures same { HoldsSame self.old self.new }
    {
        let was = self.open(x);
        let open = Open { parser: self, was };
        open.parser.prods()
    }

    // E under the binders x and y, y nearest
    #[cycle(parse)]
    fn under_two(&mut self, x: Span, y: Span) -> Result<usize, SyntaxFault>
        requires { HasRoomForNames 2 (now self.old) }
        ensures parsed { AsUnder (both_names x y) 1 expr (now self.old) (now self.new) result }
        ensures same { HoldsSame self.old self.new }
    {
        let was = self.open(x);
        let open = Open { parser: self, was };
        open.parser.under(y)
    }
}
