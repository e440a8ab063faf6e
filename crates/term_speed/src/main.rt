//! Lifts trees of 1,000, 10,000 and 100,000 cells, and puts a term into them. Their cells go to
//! standard output, and the time that each took to standard error.
#![tactic(auto)]

ghost use Rattle.std.specs.Prelude.{ℕ, ◌<◌, IfOk};
ghost use Rattle.term.specs.State.{cells_in, Kept};

use std::time::Instant;
use term::arena::{Arena, MOST_CELLS};
use term::faults::Spent;
use term::laws;
use term::node::{Binary, Node, Unary};

// A tree of `size` cells, and at least one, as balanced as can be. Its leaves name a binder of a let
// or of a function in it, or point out of it.
fn grow(arena: &mut Arena, size: usize, leaf: u64) -> Result<usize, Spent>
    requires { leaf < 2 }
    ensures kept { Kept arena.old arena.new }
    ensures made { IfOk result (λ i. i < cells_in arena.new) }
{
    if size < 2 {
        return arena.make(Node::Local(0, leaf));
    }
    if size == 2 {
        let body = grow(arena, 1, leaf)?;
        return arena.make(Node::One(0, Unary::Fun, body));
    }
    let first = (size - 1) / 2;
    let a = grow(arena, first, 0)?;
    let b = grow(arena, size - 1 - first, 1)?;
    arena.make(Node::Two(0, Binary::Let, a, b))
}

// The cells of a tree, which are few enough.
fn cells(arena: &Arena, id: usize) -> usize {
    arena.count(id, MOST_CELLS).unwrap_or(0)
}

// Lifts a tree of `size` cells by 1, and puts a sort into it.
fn measure(rt: &HostRuntime, size: usize) -> anyhow::Result<()> {
    let mut arena = Arena::new(rt.alloc(), MOST_CELLS)?;
    let tree = grow(&mut arena, size, 0)?;
    let sort = arena.make(Node::Sort(0, 0))?;
    let start = Instant::now(rt)?;
    let lifted = arena.lift(1, tree)?;
    let lifting = start.elapsed(rt)?.as_micros();
    let start = Instant::now(rt)?;
    let put = arena.put(&[sort], tree)?;
    let putting = start.elapsed(rt)?.as_micros();
    let tree = cells(&arena, tree);
    let lifted = cells(&arena, lifted);
    let put = cells(&arena, put);
    println!(rt; "cells {tree}, lifted {lifted}, put in {put}")?;
    eprintln!(rt; "{tree} cells: lifting {lifting} us, putting in {putting} us")?;
    Ok(())
}

fn main(rt: HostRuntime) -> anyhow::Result<()> {
    laws::capture_is_impossible();
    measure(&rt, 1_000)?;
    measure(&rt, 10_000)?;
    measure(&rt, 100_000)
}
