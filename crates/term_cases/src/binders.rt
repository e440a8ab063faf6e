//! Binders: which local names which, under lifting, lowering and putting in.
use std::test::Fail;
use term::arena::Arena;
use term::node::{Binary, Node, Unary};

// fun x. (x y) with the outer x put in for y is fun x. (x x'), and not fun x. (x x).
#[test]
fn shadowed(rt: HostRuntime) -> Result<(), Fail> {
    let mut a = Arena::new(rt.alloc(), 20)?;
    let x = a.make(Node::Local(0, 0))?;
    let y = a.make(Node::Local(1, 1))?;
    let call = a.make(Node::Two(2, Binary::App, x, y))?;
    let body = a.make(Node::One(3, Unary::Fun, call))?;
    let got = a.put(&[x], body)?;
    assert!(rt; a.equal(got, body));
    let both = a.make(Node::Two(2, Binary::App, x, x))?;
    let captured = a.make(Node::One(3, Unary::Fun, both))?;
    assert!(rt; !a.equal(got, captured));
    Ok(())
}

// The nearest of two binders takes the first term.
#[test]
fn two_in_order(rt: HostRuntime) -> Result<(), Fail> {
    let mut a = Arena::new(rt.alloc(), 20)?;
    let x = a.make(Node::Local(0, 0))?;
    let y = a.make(Node::Local(0, 1))?;
    let near = a.make(Node::Sort(0, 1))?;
    let far = a.make(Node::Sort(0, 2))?;
    let call = a.make(Node::Two(0, Binary::App, x, y))?;
    let got = a.put(&[near, far], call)?;
    let want = a.make(Node::Two(9, Binary::App, near, far))?;
    assert!(rt; a.equal(got, want));
    Ok(())
}

// Three terms at once: local 3, the first one past them, becomes local 0.
#[test]
fn three_in_order(rt: HostRuntime) -> Result<(), Fail> {
    let mut a = Arena::new(rt.alloc(), 30)?;
    let zero = a.make(Node::Local(0, 0))?;
    let one = a.make(Node::Local(0, 1))?;
    let two = a.make(Node::Local(0, 2))?;
    let three = a.make(Node::Local(0, 3))?;
    let sort = a.make(Node::Sort(0, 1))?;
    let entry = a.make(Node::Entry(0, 4))?;
    let fun = a.make(Node::One(0, Unary::Fun, zero))?;
    let first = a.make(Node::Two(0, Binary::Pair, zero, one))?;
    let last = a.make(Node::Two(0, Binary::Pair, two, three))?;
    let pairs = a.make(Node::Two(0, Binary::Pair, first, last))?;
    let got = a.put(&[sort, entry, fun], pairs)?;
    let want_first = a.make(Node::Two(0, Binary::Pair, sort, entry))?;
    let want_last = a.make(Node::Two(0, Binary::Pair, fun, zero))?;
    let want = a.make(Node::Two(0, Binary::Pair, want_first, want_last))?;
    assert!(rt; a.equal(got, want));
    Ok(())
}

// unpack stands over its second part with two binders: local 1 is inside, local 2 points out.
#[test]
fn unpack_lifted(rt: HostRuntime) -> Result<(), Fail> {
    let mut a = Arena::new(rt.alloc(), 20)?;
    let inside = a.make(Node::Local(0, 1))?;
    let outside = a.make(Node::Local(0, 2))?;
    let open = a.make(Node::Two(0, Binary::Unpack, inside, inside))?;
    let open_out = a.make(Node::Two(0, Binary::Unpack, inside, outside))?;
    let five = a.make(Node::Local(0, 6))?;
    let seven = a.make(Node::Local(0, 7))?;
    let got = a.lift(5, open)?;
    let got_out = a.lift(5, open_out)?;
    let want = a.make(Node::Two(0, Binary::Unpack, five, inside))?;
    let want_out = a.make(Node::Two(0, Binary::Unpack, five, seven))?;
    assert!(rt; a.equal(got, want) && a.equal(got_out, want_out));
    Ok(())
}

// match local 0 { local 1 | local 0 } with a sort put in: the left arm's local 1 names the same binder.
#[test]
fn match_arms(rt: HostRuntime) -> Result<(), Fail> {
    let mut a = Arena::new(rt.alloc(), 20)?;
    let zero = a.make(Node::Local(0, 0))?;
    let one = a.make(Node::Local(0, 1))?;
    let sort = a.make(Node::Sort(0, 5))?;
    let arms = a.make(Node::Match(0, zero, one, zero))?;
    let got = a.put(&[sort], arms)?;
    let want = a.make(Node::Match(0, sort, sort, zero))?;
    assert!(rt; a.equal(got, want));
    Ok(())
}

// Lowering by 1 fails on fun. local 1, which names the binder, and takes 1 from fun. local 2.
#[test]
fn lowered(rt: HostRuntime) -> Result<(), Fail> {
    let mut a = Arena::new(rt.alloc(), 10)?;
    let one = a.make(Node::Local(0, 1))?;
    let two = a.make(Node::Local(0, 2))?;
    let naming = a.make(Node::One(0, Unary::Fun, one))?;
    let past = a.make(Node::One(0, Unary::Fun, two))?;
    let left = a.left();
    assert_eq!(rt; a.lower(1, naming)?, None);
    assert_eq!(rt; a.left(), left);
    let low = a.lower(1, past)?.ok_or("named")?;
    assert!(rt; a.equal(low, naming));
    assert_eq!(rt; a.left() + 2, left);
    Ok(())
}
