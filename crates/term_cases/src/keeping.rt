//! Counting, contexts, storing and running out.
use std::test::Fail;
use term::arena::Arena;
use term::node::{Binary, Binder, Node};

// A pair of one sort with itself, twice: 7 cells as a tree, of which 3 are shared.
#[test]
fn counted(rt: HostRuntime) -> Result<(), Fail> {
    let mut a = Arena::new(rt.alloc(), 3)?;
    let sort = a.make(Node::Sort(0, 0))?;
    let pair = a.make(Node::Two(0, Binary::Pair, sort, sort))?;
    let pairs = a.make(Node::Two(0, Binary::Pair, pair, pair))?;
    assert_eq!(rt; a.count(pairs, 7), Some(7));
    assert_eq!(rt; a.count(pairs, 6), None);
    assert!(rt; a.lift(0, sort).is_err());
    Ok(())
}

// The nearest binder is the last one entered.
#[test]
fn contexts(rt: HostRuntime) -> Result<(), Fail> {
    let mut a = Arena::new(rt.alloc(), 10)?;
    let sort = a.make(Node::Sort(0, 0))?;
    let outer = a.enter(Binder {
        kind: Some(sort),
        value: None,
        outer: None,
    })?;
    let inner = a.enter(Binder {
        kind: None,
        value: Some(sort),
        outer: Some(outer),
    })?;
    let near = a.binder(Some(inner), 0).ok_or("no binder")?;
    let far = a.binder(Some(inner), 1).ok_or("no binder")?;
    assert_eq!(rt; near.value, Some(sort));
    assert_eq!(rt; far.kind, Some(sort));
    assert!(rt; a.binder(Some(inner), 2).is_none());
    Ok(())
}

// The shared pair is stored above the first cell, with no sharing.
#[test]
fn stored(rt: HostRuntime) -> Result<(), Fail> {
    let mut a = Arena::new(rt.alloc(), 20)?;
    let kept = a.make(Node::Sort(0, 9))?;
    let mark = a.len();
    let sort = a.make(Node::Sort(0, 0))?;
    let pair = a.make(Node::Two(0, Binary::Pair, sort, sort))?;
    let pairs = a.make(Node::Two(0, Binary::Pair, pair, pair))?;
    assert!(rt; a.closed(pairs) && a.closed(kept));
    let entry = a.store(mark, pairs, Some(kept))?;
    assert_eq!(rt; a.len(), 9);
    assert_eq!(rt; entry.kind, 7);
    assert_eq!(rt; entry.value, Some(8));
    assert_eq!(rt; a.count(7, 9), Some(7));
    assert!(rt; a.equal(8, kept));
    Ok(())
}
