//! Statements judged in the ladder and behind fences, worked from the rules.
use crate::case::{Case, first_wrong};
use sorts::{Fence, Ladder, Lcplus};
use std::test::Fail;

static LADDER: [Case; 19] = [
    Case {
        script: b"check Kind",
        lines: b"answer=0\ntype=Sort 2\nvalue=-\ncost=3\n",
    },
    Case {
        script: b"eval Sort 65534",
        lines: b"answer=0\ntype=Sort 65535\nvalue=Sort 65534\ncost=5\n",
    },
    Case {
        script: b"check Sort 65535",
        lines: b"answer=11\nat=6\nlayer=typing\ncost=1\n",
    },
    Case {
        script: b"axiom x : Kind",
        lines: b"answer=0\ntype=Kind\nvalue=-\ncost=4\n",
    },
    Case {
        script: b"check Pi (X : Type), X",
        lines: b"answer=0\ntype=Kind\nvalue=-\ncost=8\n",
    },
    Case {
        script: b"check (Sigma (X : Type), X)",
        lines: b"answer=0\ntype=Kind\nvalue=-\ncost=8\n",
    },
    Case {
        script: b"check Sort 4 + Sort 2",
        lines: b"answer=0\ntype=Sort 5\nvalue=-\ncost=5\n",
    },
    Case {
        script: b"check Sort 3 -> Type",
        lines: b"answer=0\ntype=Sort 4\nvalue=-\ncost=7\n",
    },
    Case {
        script: b"eval fun (x : Kind) => x",
        lines: b"answer=0\ntype=(Pi (_0 : Kind), Kind)\nvalue=(fun _0 => _0)\ncost=15\n",
    },
    Case {
        script: b"check (Sort 6 : Sort 7)",
        lines: b"answer=0\ntype=Sort 7\nvalue=-\ncost=5\n",
    },
    Case {
        script: b"check (Type : Sort 2)",
        lines: b"answer=9\nat=7\nlayer=typing\ncost=3\n",
    },
    Case {
        script: b"check (Type : (Kind : Sort 2))",
        lines: b"answer=0\ntype=Kind\nvalue=-\ncost=10\n",
    },
    Case {
        script: b"check fun (s : Kind + Kind) => match s with | inl x => x | inr y => y end",
        lines: b"answer=0\ntype=(Pi (_0 : (Kind + Kind)), Kind)\nvalue=-\ncost=27\n",
    },
    Case {
        script: b"check (fun (X : Type) => fun (x : X) => x) (Pi (X : Type), X -> X) (fun (X : Type) => fun (x : X) => x)",
        lines: b"answer=9\nat=44\nlayer=typing\ncost=25\n",
    },
    Case {
        script: b"check (((Pi (X : Type), X -> X), (fun (X : Type) => fun (x : X) => x)) : (Sigma (X : Type), X))",
        lines: b"answer=9\nat=9\nlayer=typing\ncost=24\n",
    },
    Case {
        script: b"check Sort 65534 -> Type",
        lines: b"answer=0\ntype=Sort 65535\nvalue=-\ncost=7\n",
    },
    Case {
        script: b"check Sort 65535 -> Type",
        lines: b"answer=11\nat=6\nlayer=typing\ncost=2\n",
    },
    Case {
        script: b"check fun (k : Kind) => fun (x : k) => fun (y : x) => y",
        lines: b"answer=8\nat=39\nlayer=typing\ncost=12\n",
    },
    Case {
        script: b"eval fun (f : Sort 4 -> Type) => f Sort 3",
        lines: b"answer=0\ntype=(Pi (_0 : (Pi (_0 : Sort 4), Type)), Type)\nvalue=(fun _0 => (_0 Sort 3))\ncost=35\n",
    },
];

static LCPLUS_WITHOUT_0_0: [Case; 3] = [
    Case {
        script: b"check Type",
        lines: b"answer=0\ntype=Kind\nvalue=-\ncost=3\n",
    },
    Case {
        script: b"check (fun (X : Type) => fun (x : X) => x)",
        lines: b"answer=0\ntype=(Pi (_0 : Type), (Pi (_1 : _0), _0))\nvalue=-\ncost=17\n",
    },
    Case {
        script: b"def f : (Pi (X : Type), X -> X) := (fun (X : Type) => fun (x : X) => x)",
        lines: b"answer=11\nat=24\nlayer=typing\ncost=12\n",
    },
];

static LADDER_WITHOUT_1_1: [Case; 1] = [Case {
    script: b"def k := Kind",
    lines: b"answer=0\ntype=Sort 2\nvalue=Kind\ncost=5\n",
}];

static LCPLUS_WITHOUT_1_0: [Case; 6] = [
    Case {
        script: b"check Pi (X : Type), X",
        lines: b"answer=11\nat=6\nlayer=typing\ncost=6\n",
    },
    Case {
        script: b"check fun (X : Type) => X -> Type",
        lines: b"answer=0\ntype=(Pi (_0 : Type), Kind)\nvalue=-\ncost=14\n",
    },
    Case {
        script: b"check fun (T : Type) => fun (x : T) => x",
        lines: b"answer=0\ntype=(Pi (_0 : Type), (Pi (_1 : _0), _0))\nvalue=-\ncost=17\n",
    },
    Case {
        script: b"check (Sigma (X : Type), X)",
        lines: b"answer=11\nat=7\nlayer=typing\ncost=6\n",
    },
    Case {
        script: b"check (exists (X : Type), X)",
        lines: b"answer=11\nat=7\nlayer=typing\ncost=6\n",
    },
    Case {
        script: b"check Type + (Pi (X : Type), X)",
        lines: b"answer=11\nat=14\nlayer=typing\ncost=8\n",
    },
];

static LCPLUS_WITHOUT_0_1: [Case; 2] = [
    Case {
        script: b"check Pi (X : Type), X",
        lines: b"answer=0\ntype=Type\nvalue=-\ncost=8\n",
    },
    Case {
        script: b"check fun (Y : Type) => (Y) -> Type",
        lines: b"answer=11\nat=25\nlayer=typing\ncost=10\n",
    },
];

static LCPLUS_WITHOUT_1_1: [Case; 3] = [
    Case {
        script: b"check Type * Type",
        lines: b"answer=11\nat=6\nlayer=typing\ncost=5\n",
    },
    Case {
        script: b"check Type -> Type -> Type",
        lines: b"answer=11\nat=14\nlayer=typing\ncost=9\n",
    },
    Case {
        script: b"check (Type) + Type",
        lines: b"answer=11\nat=7\nlayer=typing\ncost=3\n",
    },
];

static LADDER_WITHOUT_0_0: [Case; 1] = [Case {
    script: b"check fun (X : Type) => X + X",
    lines: b"answer=11\nat=24\nlayer=typing\ncost=9\n",
}];

static LADDER_WITHOUT_2_1: [Case; 1] = [Case {
    script: b"check exists (k : Kind), Type",
    lines: b"answer=11\nat=6\nlayer=typing\ncost=5\n",
}];

static LADDER_WITHOUT_1_2: [Case; 1] = [Case {
    script: b"check exists (k : Kind), Type",
    lines: b"answer=0\ntype=Sort 2\nvalue=-\ncost=7\n",
}];

#[test]
fn ladder(rt: HostRuntime) -> Result<(), Fail> {
    assert_eq!(rt; first_wrong(rt.alloc(), &Ladder, &LADDER)?, None);
    Ok(())
}

#[test]
fn lcplus_without_0_0(rt: HostRuntime) -> Result<(), Fail> {
    let fence = Fence {
        inner: Lcplus,
        first: 0,
        second: 0,
    };
    assert_eq!(rt; first_wrong(rt.alloc(), &fence, &LCPLUS_WITHOUT_0_0)?, None);
    Ok(())
}

#[test]
fn ladder_without_1_1(rt: HostRuntime) -> Result<(), Fail> {
    let fence = Fence {
        inner: Ladder,
        first: 1,
        second: 1,
    };
    assert_eq!(rt; first_wrong(rt.alloc(), &fence, &LADDER_WITHOUT_1_1)?, None);
    Ok(())
}

#[test]
fn lcplus_without_1_0(rt: HostRuntime) -> Result<(), Fail> {
    let fence = Fence {
        inner: Lcplus,
        first: 1,
        second: 0,
    };
    assert_eq!(rt; first_wrong(rt.alloc(), &fence, &LCPLUS_WITHOUT_1_0)?, None);
    Ok(())
}

#[test]
fn lcplus_without_0_1(rt: HostRuntime) -> Result<(), Fail> {
    let fence = Fence {
        inner: Lcplus,
        first: 0,
        second: 1,
    };
    assert_eq!(rt; first_wrong(rt.alloc(), &fence, &LCPLUS_WITHOUT_0_1)?, None);
    Ok(())
}

#[test]
fn lcplus_without_1_1(rt: HostRuntime) -> Result<(), Fail> {
    let fence = Fence {
        inner: Lcplus,
        first: 1,
        second: 1,
    };
    assert_eq!(rt; first_wrong(rt.alloc(), &fence, &LCPLUS_WITHOUT_1_1)?, None);
    Ok(())
}

#[test]
fn ladder_without_0_0(rt: HostRuntime) -> Result<(), Fail> {
    let fence = Fence {
        inner: Ladder,
        first: 0,
        second: 0,
    };
    assert_eq!(rt; first_wrong(rt.alloc(), &fence, &LADDER_WITHOUT_0_0)?, None);
    Ok(())
}

#[test]
fn ladder_without_2_1(rt: HostRuntime) -> Result<(), Fail> {
    let fence = Fence {
        inner: Ladder,
        first: 2,
        second: 1,
    };
    assert_eq!(rt; first_wrong(rt.alloc(), &fence, &LADDER_WITHOUT_2_1)?, None);
    Ok(())
}

#[test]
fn ladder_without_1_2(rt: HostRuntime) -> Result<(), Fail> {
    let fence = Fence {
        inner: Ladder,
        first: 1,
        second: 2,
    };
    assert_eq!(rt; first_wrong(rt.alloc(), &fence, &LADDER_WITHOUT_1_2)?, None);
    Ok(())
}
