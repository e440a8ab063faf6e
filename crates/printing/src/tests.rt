//! Printed texts, worked out by hand.
use crate::fault::PrintFault;
use crate::printer::print;
use script::statement::Span;
use std::test::Fail;
use term::arena::Arena;
use term::node::{Binary, Node, Unary};

// Binders are numbered from the outermost, and the bytes past the text stay.
#[test]
fn binders(rt: HostRuntime) -> Result<(), Fail> {
    let mut a = Arena::new(rt.alloc(), 10)?;
    let sort = a.make(Node::Sort(0, 12))?;
    let outer = a.make(Node::Local(0, 1))?;
    let body = a.make(Node::One(0, Unary::Fun, outer))?;
    let term = a.make(Node::Two(0, Binary::Pi, sort, body))?;
    let mut out = [b'#'; 37];
    let n = print(&a, term, &[], b"", &mut out)?;
    assert_eq!(rt; n, 35);
    assert!(rt; out == *b"(Pi (_0 : Sort 12), (fun _1 => _0))##");
    Ok(())
}

// The inl arm stands first; an entry is printed by its name in the script.
#[test]
fn arms(rt: HostRuntime) -> Result<(), Fail> {
    let mut a = Arena::new(rt.alloc(), 10)?;
    let zero = a.make(Node::Entry(0, 1))?;
    let left = a.make(Node::One(0, Unary::Inl, zero))?;
    let x = a.make(Node::Local(0, 0))?;
    let kind = a.make(Node::Sort(0, 1))?;
    let pack = a.make(Node::Two(0, Binary::Pack, x, kind))?;
    let term = a.make(Node::Match(0, left, x, pack))?;
    let names = [Span { at: 0, len: 3 }, Span { at: 4, len: 4 }];
    let mut out = [b'#'; 65];
    assert_eq!(rt; print(&a, term, &names, b"nat zero", &mut out)?, 65);
    assert!(rt; out == *b"(match (inl zero) with | inl _0 => _0 | inr _0 => {_0, Kind} end)");
    Ok(())
}

// One byte too few: nothing is written.
#[test]
fn short(rt: HostRuntime) -> Result<(), Fail> {
    let mut a = Arena::new(rt.alloc(), 10)?;
    let sort = a.make(Node::Sort(0, 0))?;
    let pair = a.make(Node::Two(0, Binary::Pair, sort, sort))?;
    let mut out = [b'#'; 11];
    assert_eq!(rt;
        print(&a, pair, &[], b"", &mut out).map_err(PrintFault::number),
        Err(26)
    );
    assert!(rt; out == *b"###########");
    Ok(())
}
