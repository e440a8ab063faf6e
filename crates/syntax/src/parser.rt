//! The parser: what reads the words of a statement into cells.
ghost use Rattle.std.specs.Prelude.{◌≡◌, vec_len};
ghost use Rattle.syntax.specs.Rooms.{Room};

use crate::ahead::Ahead;
use crate::fault::SyntaxFault;
use crate::scope::{self, Scope, binders};
use script::statement::Span;
use term::arena::Arena;
use term::node::{Binary, Node};

/// The words to come, the names of the entries in the order in which they were entered, the open
/// binders, and the cells. There is room for all that the words can open and make.
#[derive(Drop)]
pub struct Parser<'a> {
    pub words: Ahead<'a>,
    pub entries: &'a [Span],
    pub scope: &'a mut Scope,
    pub arena: &'a mut Arena,
    ghost room: { Room words scope.now arena.now },
}

/// A parser with a binder that is open while this lives. Its drop closes it, and all within it.
pub struct Open<'g, 'a> {
    pub parser: &'g mut Parser<'a>,
    pub was: usize,
}

impl Drop for Open<'_, '_> {
    ghost use Rattle.syntax.specs.Parses.{now, ClosesBinders, HoldsSame};

    fn drop(self)
        ensures closed { ClosesBinders self.entry.was (now self.entry.parser.now) (now self.exit.0.now) }
        ensures same { HoldsSame self.entry.parser.now self.exit.0.now }
    {
        let Open { parser, was } = self;
        let _open = scope::Open {
            scope: parser.scope,
            was,
        };
    }
}

impl Parser<'_> {
    ghost use Rattle.std.specs.Prelude.{◌<◌, ◌≤◌, ◌+◌, ◌*◌, ◌^◌};
    ghost use Rattle.term.specs.Cells.{reach, high};
    ghost use Rattle.term.specs.State.{term, cells_in};
    ghost use Rattle.term.specs.Term.{place};
    ghost use Rattle.grammar.specs.Grammar.{here, begins};
    ghost use Rattle.syntax.specs.Look.{left};
    ghost use Rattle.syntax.specs.Parses.{now, OpensBinder, Adds, HoldsSame, HasRoomForCell, HasRoomForNames, Means};

    // Stays: `here`, `begins`, `misfit` again: where a struct has an invariant, a method with `&mut self` cannot lend a field by `&`.

    // The place of the next word, or the statement's end.
    pub(crate) fn here(&self) -> usize
        ensures { result ≡ here self.now.words.end (left self.now.words) }
    {
        self.words.here()
    }

    // Whether the next word begins an atom.
    pub(crate) fn begins(&self) -> bool
        ensures { result ≡ begins (left self.now.words) }
    {
        self.words.begins()
    }

    // That the next word does not fit.
    pub(crate) fn misfit(&self) -> SyntaxFault
        ensures { result ≡ SyntaxFault.Misfit (here self.now.words.end (left self.now.words)) }
    {
        self.words.misfit()
    }

    // Opens one more binder, the nearest, and answers how many were open.
    pub(crate) fn open(&mut self, name: Span) -> usize
        requires { HasRoomForNames 1 (now self.old) }
        ensures was { result ≡ vec_len self.old.scope.now.names }
        ensures opened { OpensBinder name (now self.old) (now self.new) }
        ensures same { HoldsSame self.old self.new }
    {
        let was = self.scope.count();
        self.scope.open(name);
        was
    }

    // One more cell, for which a word that was passed left room.
    pub(crate) fn add(&mut self, node: Node) -> usize
        requires room { HasRoomForCell (now self.old) }
        requires lower { reach node ≤ cells_in self.old.arena.now }
        requires small { high node < (cells_in self.old.arena.now + 1) * 2 ^ 32 }
        ensures added { Adds (now self.old) (now self.new) node result }
        ensures same { HoldsSame self.old self.new }
    {
        self.arena.add(node)
    }

    // Two terms as one, at the place of the first.
    pub(crate) fn join(&mut self, binary: Binary, e: usize, f: usize) -> usize
        requires room { HasRoomForCell (now self.old) }
        requires first { e < cells_in self.old.arena.now }
        requires second { f < cells_in self.old.arena.now }
        ensures added { Adds (now self.old) (now self.new) (Node.Two (place (term self.old.arena.now e)) binary e f) result }
        ensures same { HoldsSame self.old self.new }
    {
        let place = self.arena.place(e);
        self.add(Node::Two(place, binary, e, f))
    }

    // What a name at a place means: the nearest binder, else the entry.
    pub(crate) fn meaning(&self, place: usize, x: Span) -> Result<Node, SyntaxFault>
        ensures { Means (now self.now) place x result }
    {
        let script = self.words.script();
        let name = x.bytes(script);
        if let Some(i) = self.scope.nearest(script, name) {
            return Ok(Node::Local(place, i as u64));
        }
        binders::entry_named(script, self.entries, name)
            .map(|j| Node::Entry(place, j))
            .ok_or(SyntaxFault::UnknownName(place))
    }
}
