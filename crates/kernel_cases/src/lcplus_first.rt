//! Statements judged in LC+, with their types, values, refusals and costs, worked from the rules.
use crate::case::{Case, first_wrong};
use sorts::Lcplus;
use std::test::Fail;

static CASES_A: [Case; 24] = [
    Case {
        script: b"check Type",
        lines: b"answer=0\ntype=Kind\nvalue=-\ncost=3\n",
    },
    Case {
        script: b"check Prop",
        lines: b"answer=0\ntype=Kind\nvalue=-\ncost=3\n",
    },
    Case {
        script: b"eval Sort 0",
        lines: b"answer=0\ntype=Kind\nvalue=Type\ncost=5\n",
    },
    Case {
        script: b"check Kind",
        lines: b"answer=11\nat=6\nlayer=typing\ncost=1\n",
    },
    Case {
        script: b"def x := Sort 1",
        lines: b"answer=11\nat=9\nlayer=typing\ncost=1\n",
    },
    Case {
        script: b"eval Sort 2",
        lines: b"answer=11\nat=5\nlayer=typing\ncost=1\n",
    },
    Case {
        script: b"axiom x : Type",
        lines: b"answer=0\ntype=Type\nvalue=-\ncost=4\n",
    },
    Case {
        script: b"axiom x : Kind",
        lines: b"answer=11\nat=10\nlayer=typing\ncost=1\n",
    },
    Case {
        script: b"-- a comment: check Type\n\n  check  ( ( Kind ) )\n",
        lines: b"answer=11\nat=39\nlayer=typing\ncost=1\n",
    },
    Case {
        script: b"check Pi (X : Type), X",
        lines: b"answer=0\ntype=Type\nvalue=-\ncost=8\n",
    },
    Case {
        script: b"check (Pi (X : Type), X) -> Type",
        lines: b"answer=0\ntype=Kind\nvalue=-\ncost=15\n",
    },
    Case {
        script: b"check (Pi (X : Type), X) -> (Pi (X : Type), X -> X)",
        lines: b"answer=0\ntype=Type\nvalue=-\ncost=25\n",
    },
    Case {
        script: b"check Type -> Type",
        lines: b"answer=0\ntype=Kind\nvalue=-\ncost=7\n",
    },
    Case {
        script: b"check (Sigma (X : Type), X)",
        lines: b"answer=0\ntype=Type\nvalue=-\ncost=8\n",
    },
    Case {
        script: b"check (exists (X : Type), X)",
        lines: b"answer=0\ntype=Type\nvalue=-\ncost=8\n",
    },
    Case {
        script: b"check Type + (Pi (X : Type), X)",
        lines: b"answer=0\ntype=Type\nvalue=-\ncost=10\n",
    },
    Case {
        script: b"check (Pi (X : Type), X) + Type",
        lines: b"answer=0\ntype=Kind\nvalue=-\ncost=10\n",
    },
    Case {
        script: b"check fun (x : Type) => Type",
        lines: b"answer=0\ntype=(Pi (_0 : Type), Kind)\nvalue=-\ncost=9\n",
    },
    Case {
        script: b"check Type -> Kind",
        lines: b"answer=11\nat=14\nlayer=typing\ncost=5\n",
    },
    Case {
        script: b"check Kind -> Type",
        lines: b"answer=11\nat=6\nlayer=typing\ncost=2\n",
    },
    Case {
        script: b"eval fun (x : Type) => fun (x : x) => x",
        lines: b"answer=0\ntype=(Pi (_0 : Type), (Pi (_1 : _0), _0))\nvalue=(fun _0 => (fun _1 => _1))\ncost=25\n",
    },
    Case {
        script: b"check fun (x : Type) => fun (y : x) => fun (x : x) => y",
        lines: b"answer=0\ntype=(Pi (_0 : Type), (Pi (_1 : _0), (Pi (_2 : _0), _0)))\nvalue=-\ncost=24\n",
    },
    Case {
        script: b"eval fun (A : Type) => fun (x : A) => fun (y : A) => x",
        lines: b"answer=0\ntype=(Pi (_0 : Type), (Pi (_1 : _0), (Pi (_2 : _0), _0)))\nvalue=(fun _0 => (fun _1 => (fun _2 => _1)))\ncost=35\n",
    },
    Case {
        script: b"eval fun (A : Type) => fun (x : A) => fun (y : A) => y",
        lines: b"answer=0\ntype=(Pi (_0 : Type), (Pi (_1 : _0), (Pi (_2 : _0), _0)))\nvalue=(fun _0 => (fun _1 => (fun _2 => _2)))\ncost=35\n",
    },
];

static CASES_B: [Case; 24] = [
    Case {
        script: b"check fun (f : Pi (X : Type), X -> X) => fun (Y : Type) => f",
        lines: b"answer=0\ntype=(Pi (_0 : (Pi (_0 : Type), (Pi (_1 : _0), _0))), (Pi (_1 : Type), (Pi (_2 : Type), (Pi (_3 : _2), _2))))\nvalue=-\ncost=44\n",
    },
    Case {
        script: b"check fun (A : Type) => fun (B : A -> Type) => fun (f : Pi (x : A), B x) => f",
        lines: b"answer=0\ntype=(Pi (_0 : Type), (Pi (_1 : (Pi (_1 : _0), Type)), (Pi (_2 : (Pi (_2 : _0), (_1 _2))), (Pi (_3 : _0), (_1 _3)))))\nvalue=-\ncost=63\n",
    },
    Case {
        script: b"eval fun (y : Type) => (fun (x : Type) => fun (y : Type) => x) y",
        lines: b"answer=0\ntype=(Pi (_0 : Type), (Pi (_1 : Type), Type))\nvalue=(fun _0 => (fun _1 => _0))\ncost=48\n",
    },
    Case {
        script: b"eval fun (y : Type) => fun (x : Type) => (fun (y : Type) => fun (x : Type) => y -> x) x",
        lines: b"answer=0\ntype=(Pi (_0 : Type), (Pi (_1 : Type), (Pi (_2 : Type), Type)))\nvalue=(fun _0 => (fun _1 => (fun _2 => (Pi (_3 : _1), _2))))\ncost=72\n",
    },
    Case {
        script: b"eval fun (x : Type) => fun (y : Type) => (fun (x : Type) => fun (y : Type) => x -> y) y x",
        lines: b"answer=0\ntype=(Pi (_0 : Type), (Pi (_1 : Type), Type))\nvalue=(fun _0 => (fun _1 => (Pi (_2 : _1), _0)))\ncost=84\n",
    },
    Case {
        script: b"eval fun (X : Type) => (fun (Y : Type) => Pi (X : Type), X -> Y) (X -> X)",
        lines: b"answer=0\ntype=(Pi (_0 : Type), Type)\nvalue=(fun _0 => (Pi (_1 : Type), (Pi (_2 : _1), (Pi (_3 : _0), _0))))\ncost=75\n",
    },
    Case {
        script: b"check fun (A : Type) => fun (x : A) => (fun (B : Type) => fun (x : B) => fun (A : Type) => x) A x",
        lines: b"answer=0\ntype=(Pi (_0 : Type), (Pi (_1 : _0), (Pi (_2 : Type), _0)))\nvalue=-\ncost=59\n",
    },
    Case {
        script: b"eval fun (A : Type) => A -> A -> A",
        lines: b"answer=0\ntype=(Pi (_0 : Type), Type)\nvalue=(fun _0 => (Pi (_1 : _0), (Pi (_2 : _0), _0)))\ncost=35\n",
    },
    Case {
        script: b"eval fun (A : Type) => A * A * A",
        lines: b"answer=0\ntype=(Pi (_0 : Type), Type)\nvalue=(fun _0 => (Sigma (_1 : _0), (Sigma (_2 : _0), _0)))\ncost=35\n",
    },
    Case {
        script: b"check fun (A : Type) => fun (B : Type) => fun (f : A -> B) => (f : Pi (A : A), B)",
        lines: b"answer=0\ntype=(Pi (_0 : Type), (Pi (_1 : Type), (Pi (_2 : (Pi (_2 : _0), _1)), (Pi (_3 : _0), _1))))\nvalue=-\ncost=50\n",
    },
    Case {
        script: b"check fun (A : Type) => fun (f : Pi (X : Type), X) => (f : Type -> A)",
        lines: b"answer=9\nat=55\nlayer=typing\ncost=32\n",
    },
    Case {
        script: b"check fun x => x",
        lines: b"answer=7\nat=6\nlayer=typing\ncost=0\n",
    },
    Case {
        script: b"def id : Pi (X : Type), X -> X := fun X => fun x => x",
        lines: b"answer=0\ntype=(Pi (_0 : Type), (Pi (_1 : _0), _0))\nvalue=(fun _0 => (fun _1 => _1))\ncost=41\n",
    },
    Case {
        script: b"def k : Pi (X : Type), X -> X -> X := fun X => fun x => fun y => X",
        lines: b"answer=9\nat=65\nlayer=typing\ncost=36\n",
    },
    Case {
        script: b"check ((fun x => x) : Type)",
        lines: b"answer=8\nat=8\nlayer=typing\ncost=2\n",
    },
    Case {
        script: b"def f : (Pi (X : Type), X -> X) := fun X => fun x => fun y => x",
        lines: b"answer=8\nat=53\nlayer=typing\ncost=24\n",
    },
    Case {
        script: b"eval (fun x => x x) (fun x => x x)",
        lines: b"answer=7\nat=6\nlayer=typing\ncost=1\n",
    },
    Case {
        script: b"check ((fun (X : Type) => fun x => x) : Pi (X : Type), X -> X)",
        lines: b"answer=7\nat=26\nlayer=typing\ncost=24\n",
    },
    Case {
        script: b"check ((fun (X : Type) => fun (x : X) => x) : Pi (Y : Type), Y -> Y)",
        lines: b"answer=0\ntype=(Pi (_0 : Type), (Pi (_1 : _0), _0))\nvalue=-\ncost=37\n",
    },
    Case {
        script: b"check ((fun (x : (Pi (X : Type), X)) => x) : Type -> Type)",
        lines: b"answer=9\nat=8\nlayer=typing\ncost=27\n",
    },
    Case {
        script: b"eval ((fun X => fun (x : X) => x) : Pi (Y : Type), Y -> Y)",
        lines: b"answer=0\ntype=(Pi (_0 : Type), (Pi (_1 : _0), _0))\nvalue=(fun _0 => (fun _1 => _1))\ncost=44\n",
    },
    Case {
        script: b"check fun (x : (fun (X : Type) => X -> X) (Pi (X : Type), X)) => x",
        lines: b"answer=0\ntype=(Pi (_0 : (Pi (_0 : (Pi (_0 : Type), _0)), (Pi (_1 : Type), _1))), (Pi (_1 : (Pi (_1 : Type), _1)), (Pi (_2 : Type), _2)))\nvalue=-\ncost=75\n",
    },
    Case {
        script: b"check fun (X : Type) => fun (x : X) => fun (y : x) => y",
        lines: b"answer=8\nat=39\nlayer=typing\ncost=12\n",
    },
    Case {
        script: b"check fun (x : Kind) => x",
        lines: b"answer=11\nat=15\nlayer=typing\ncost=2\n",
    },
];

static CASES_C: [Case; 24] = [
    Case {
        script: b"check fun (x : fun y => y) => x",
        lines: b"answer=7\nat=15\nlayer=typing\ncost=1\n",
    },
    Case {
        script: b"check ((Pi (X : Type), X) : Type)",
        lines: b"answer=0\ntype=Type\nvalue=-\ncost=10\n",
    },
    Case {
        script: b"eval (Type : Kind)",
        lines: b"answer=0\ntype=Kind\nvalue=Type\ncost=8\n",
    },
    Case {
        script: b"check (Type : Type)",
        lines: b"answer=9\nat=7\nlayer=typing\ncost=3\n",
    },
    Case {
        script: b"check (Type : Sort 7)",
        lines: b"answer=9\nat=7\nlayer=typing\ncost=3\n",
    },
    Case {
        script: b"check let k := Type in ((Pi (X : Type), X) : k)",
        lines: b"answer=0\ntype=Type\nvalue=-\ncost=19\n",
    },
    Case {
        script: b"check ((Pi (X : Type), X) : (Type : Kind))",
        lines: b"answer=0\ntype=Type\nvalue=-\ncost=15\n",
    },
    Case {
        script: b"check (Type : (Kind : Sort 2))",
        lines: b"answer=11\nat=15\nlayer=typing\ncost=4\n",
    },
    Case {
        script: b"check ((fun (X : Type) => fun (x : X) => x) : (fun (A : Type) => A) (Pi (X : Type), X -> X))",
        lines: b"answer=0\ntype=(Pi (_0 : Type), (Pi (_1 : _0), _0))\nvalue=-\ncost=63\n",
    },
    Case {
        script: b"check ((fun (X : Type) => fun (x : X) => x) : (fun (X : Type) => fun (x : X) => x))",
        lines: b"answer=8\nat=6\nlayer=typing\ncost=12\n",
    },
    Case {
        script: b"check (Type : fun x => x)",
        lines: b"answer=7\nat=14\nlayer=typing\ncost=1\n",
    },
    Case {
        script: b"eval (((fun (X : Type) => fun (x : X) => x) : (Pi (X : Type), X -> X)) : Pi (Z : Type), Z -> Z)",
        lines: b"answer=0\ntype=(Pi (_0 : Type), (Pi (_1 : _0), _0))\nvalue=(fun _0 => (fun _1 => _1))\ncost=67\n",
    },
    Case {
        script: b"def x : (fun (Y : Type) => Y) := Type",
        lines: b"answer=8\nat=9\nlayer=typing\ncost=7\n",
    },
    Case {
        script: b"def x : (((Type))) := Type",
        lines: b"answer=9\nat=22\nlayer=typing\ncost=3\n",
    },
    Case {
        script: b"eval let f : (Pi (X : Type), X -> X) := fun Y => fun y => y in f",
        lines: b"answer=0\ntype=(Pi (_0 : Type), (Pi (_1 : _0), _0))\nvalue=(fun _0 => (fun _1 => _1))\ncost=69\n",
    },
    Case {
        script: b"check let T : Type := Type in T",
        lines: b"answer=9\nat=22\nlayer=typing\ncost=4\n",
    },
    Case {
        script: b"check let T : (fun (X : Type) => fun (x : X) => x) := Type in T",
        lines: b"answer=8\nat=15\nlayer=typing\ncost=13\n",
    },
    Case {
        script: b"check Pi (x : (fun (X : Type) => fun (x : X) => x)), Type",
        lines: b"answer=8\nat=6\nlayer=typing\ncost=12\n",
    },
    Case {
        script: b"check Pi (X : Type), Pi (x : X), x",
        lines: b"answer=8\nat=21\nlayer=typing\ncost=11\n",
    },
    Case {
        script: b"check (Pi (X : Type), X) -> (fun (X : Type) => fun (x : X) => x)",
        lines: b"answer=8\nat=7\nlayer=typing\ncost=23\n",
    },
    Case {
        script: b"check (fun (X : Type) => fun (x : X) => x) * Type",
        lines: b"answer=8\nat=7\nlayer=typing\ncost=12\n",
    },
    Case {
        script: b"check Sigma (X : Type), (fun (X : Type) => fun (x : X) => x)",
        lines: b"answer=8\nat=6\nlayer=typing\ncost=15\n",
    },
    Case {
        script: b"check exists (x : (fun (X : Type) => fun (x : X) => x)), Type",
        lines: b"answer=8\nat=6\nlayer=typing\ncost=12\n",
    },
    Case {
        script: b"check exists (X : Type), fun x => x",
        lines: b"answer=7\nat=25\nlayer=typing\ncost=4\n",
    },
];

static CASES_D: [Case; 24] = [
    Case {
        script: b"check (fun (X : Type) => fun (x : X) => x) + Type",
        lines: b"answer=8\nat=7\nlayer=typing\ncost=12\n",
    },
    Case {
        script: b"check (Type) + (fun (X : Type) => fun (x : X) => x)",
        lines: b"answer=8\nat=7\nlayer=typing\ncost=13\n",
    },
    Case {
        script: b"check (fun (X : Type) => fun (x : X) => x) + (Type, Type)",
        lines: b"answer=8\nat=7\nlayer=typing\ncost=12\n",
    },
    Case {
        script: b"check Type + (fun x => x)",
        lines: b"answer=7\nat=14\nlayer=typing\ncost=2\n",
    },
    Case {
        script: b"eval fun (A : Type) => Pi (x : A), Sigma (y : A), exists (z : A), (A + A)",
        lines: b"answer=0\ntype=(Pi (_0 : Type), Type)\nvalue=(fun _0 => (Pi (_1 : _0), (Sigma (_2 : _0), (exists (_3 : _0), (_0 + _0)))))\ncost=52\n",
    },
    Case {
        script: b"check Type Type",
        lines: b"answer=8\nat=6\nlayer=typing\ncost=2\n",
    },
    Case {
        script: b"check ((Type)) (fun (X : Type) => fun (x : X) => x)",
        lines: b"answer=8\nat=8\nlayer=typing\ncost=2\n",
    },
    Case {
        script: b"check (fun (X : Type) => fun (x : X) => x) (Pi (X : Type), X) (Pi (X : Type), X)",
        lines: b"answer=9\nat=63\nlayer=typing\ncost=44\n",
    },
    Case {
        script: b"check fun (A : Type) => fun (a : A) => (fun (X : Type) => fun (x : X) => x) A a a",
        lines: b"answer=8\nat=40\nlayer=typing\ncost=38\n",
    },
    Case {
        script: b"check (fun (X : Type) => fun (x : X) => x) Type",
        lines: b"answer=9\nat=43\nlayer=typing\ncost=14\n",
    },
    Case {
        script: b"eval (fun (f : (Pi (X : Type), X -> X)) => f) (fun Y => fun y => y)",
        lines: b"answer=0\ntype=(Pi (_0 : Type), (Pi (_1 : _0), _0))\nvalue=(fun _0 => (fun _1 => _1))\ncost=72\n",
    },
    Case {
        script: b"check (fun (f : (Pi (X : Type), X -> X)) => f) (Type, Type)",
        lines: b"answer=8\nat=47\nlayer=typing\ncost=28\n",
    },
    Case {
        script: b"eval (fun (X : Type) => fun (x : X) => x) (Pi (X : Type), X -> X) (fun (X : Type) => fun (x : X) => x)",
        lines: b"answer=0\ntype=(Pi (_0 : Type), (Pi (_1 : _0), _0))\nvalue=(fun _0 => (fun _1 => _1))\ncost=117\n",
    },
    Case {
        script: b"eval fun (A : Type) => fun (a : A) => (fun (x : A) => x) ((fun (x : A) => x) a)",
        lines: b"answer=0\ntype=(Pi (_0 : Type), (Pi (_1 : _0), _0))\nvalue=(fun _0 => (fun _1 => _1))\ncost=59\n",
    },
    Case {
        script: b"eval fun (A : Type) => (fun (f : A -> A) => fun (a : A) => f (f a)) (fun (x : A) => x)",
        lines: b"answer=0\ntype=(Pi (_0 : Type), (Pi (_1 : _0), _0))\nvalue=(fun _0 => (fun _1 => _1))\ncost=103\n",
    },
    Case {
        script: b"eval fun (A : Type) => fun (f : A -> A) => fun (a : A) => f ((fun (x : A) => f x) a)",
        lines: b"answer=0\ntype=(Pi (_0 : Type), (Pi (_1 : (Pi (_1 : _0), _0)), (Pi (_2 : _0), _0)))\nvalue=(fun _0 => (fun _1 => (fun _2 => (_1 (_1 _2)))))\ncost=90\n",
    },
    Case {
        script: b"eval fun (A : Type) => fun (f : A -> A -> A) => fun (a : A) => f (f a a) (f a a)",
        lines: b"answer=0\ntype=(Pi (_0 : Type), (Pi (_1 : (Pi (_1 : _0), (Pi (_2 : _0), _0))), (Pi (_2 : _0), _0)))\nvalue=(fun _0 => (fun _1 => (fun _2 => ((_1 ((_1 _2) _2)) ((_1 _2) _2)))))\ncost=142\n",
    },
    Case {
        script: b"check fun (A : Type) => fun (P : A -> Type) => fun (a : A) => fun (p : P a) => (p : P ((fun (x : A) => x) a))",
        lines: b"answer=0\ntype=(Pi (_0 : Type), (Pi (_1 : (Pi (_1 : _0), Type)), (Pi (_2 : _0), (Pi (_3 : (_1 _2)), (_1 _2)))))\nvalue=-\ncost=88\n",
    },
    Case {
        script: b"check fun (A : Type) => fun (P : A -> Type) => fun (a : A) => fun (p : P a) => (p : P (fst ((a, a) : A * A)))",
        lines: b"answer=0\ntype=(Pi (_0 : Type), (Pi (_1 : (Pi (_1 : _0), Type)), (Pi (_2 : _0), (Pi (_3 : (_1 _2)), (_1 _2)))))\nvalue=-\ncost=95\n",
    },
    Case {
        script: b"check (fun (x : (Pi (X : Type), X -> X)) => Type) (fun (X : Type) => fun (x : X) => x)",
        lines: b"answer=0\ntype=Kind\nvalue=-\ncost=38\n",
    },
    Case {
        script: b"check let T := Type in fun (x : T) => x",
        lines: b"answer=0\ntype=(Pi (_0 : Type), Type)\nvalue=-\ncost=19\n",
    },
    Case {
        script: b"check fun (A : Type) => let T := A in fun (x : T) => (x : A)",
        lines: b"answer=0\ntype=(Pi (_0 : Type), (Pi (_1 : _0), _0))\nvalue=-\ncost=31\n",
    },
    Case {
        script: b"check fun (A : Type) => let T := A -> A in fun (x : T) => x",
        lines: b"answer=0\ntype=(Pi (_0 : Type), (Pi (_1 : (Pi (_1 : _0), _0)), (Pi (_2 : _0), _0)))\nvalue=-\ncost=46\n",
    },
    Case {
        script: b"eval let x := (fun (X : Type) => fun (x : X) => x) in Type",
        lines: b"answer=0\ntype=Kind\nvalue=Type\ncost=31\n",
    },
];

static CASES_E: [Case; 24] = [
    Case {
        script: b"eval let x := Type -> Type in x -> x",
        lines: b"answer=0\ntype=Kind\nvalue=(Pi (_0 : (Pi (_0 : Type), Type)), (Pi (_1 : Type), Type))\ncost=53\n",
    },
    Case {
        script: b"eval fun (x : Type) => let y := x in let x := y -> y in y -> x",
        lines: b"answer=0\ntype=(Pi (_0 : Type), Type)\nvalue=(fun _0 => (Pi (_1 : _0), (Pi (_2 : _0), _0)))\ncost=73\n",
    },
    Case {
        script: b"eval fun (x : Type) => let x := x -> x in let x := x -> x in x",
        lines: b"answer=0\ntype=(Pi (_0 : Type), Type)\nvalue=(fun _0 => (Pi (_1 : (Pi (_1 : _0), _0)), (Pi (_2 : _0), _0)))\ncost=99\n",
    },
    Case {
        script: b"check fun (A : Type) => let T := A in fun (B : Type) => fun (f : B -> T) => fun (b : B) => (f b : A)",
        lines: b"answer=0\ntype=(Pi (_0 : Type), (Pi (_1 : Type), (Pi (_2 : (Pi (_2 : _1), _0)), (Pi (_3 : _1), _0))))\nvalue=-\ncost=68\n",
    },
    Case {
        script: b"check let f := fun x => x in Type",
        lines: b"answer=7\nat=15\nlayer=typing\ncost=1\n",
    },
    Case {
        script: b"check let f := Type in fun x => f",
        lines: b"answer=7\nat=23\nlayer=typing\ncost=4\n",
    },
    Case {
        script: b"check let x := ((fun (X : Type) => fun (x : X) => x) : (Pi (X : Type), X -> X)) in x Type",
        lines: b"answer=9\nat=85\nlayer=typing\ncost=48\n",
    },
    Case {
        script: b"check let T := (Pi (X : Type), X -> X) in let i := ((fun (X : Type) => fun (x : X) => x) : T) in i",
        lines: b"answer=0\ntype=(Pi (_0 : Type), (Pi (_1 : _0), _0))\nvalue=-\ncost=71\n",
    },
    Case {
        script: b"check (fun (T : Type) => fun (x : T) => (x : (Pi (X : Type), X -> X))) (Pi (X : Type), X -> X)",
        lines: b"answer=9\nat=41\nlayer=typing\ncost=32\n",
    },
    Case {
        script: b"check ((let T := Type in fun (x : T) => x) : Type -> Type)",
        lines: b"answer=0\ntype=(Pi (_0 : Type), Type)\nvalue=-\ncost=30\n",
    },
    Case {
        script: b"eval let f := fun (x : Type) => fun (y : Type) => x in fun (y : Type) => f y",
        lines: b"answer=0\ntype=(Pi (_0 : Type), (Pi (_1 : Type), Type))\nvalue=(fun _0 => (fun _1 => _0))\ncost=79\n",
    },
    Case {
        script: b"check (Type, Type)",
        lines: b"answer=7\nat=6\nlayer=typing\ncost=0\n",
    },
    Case {
        script: b"eval (((Pi (X : Type), X), (Pi (X : Type), X -> X)) : Type * Type)",
        lines: b"answer=0\ntype=(Sigma (_0 : Type), Type)\nvalue=((Pi (_0 : Type), _0), (Pi (_0 : Type), (Pi (_1 : _0), _0)))\ncost=58\n",
    },
    Case {
        script: b"eval (((Pi (X : Type), X -> X), (fun (X : Type) => fun (x : X) => x)) : (Sigma (X : Type), X))",
        lines: b"answer=0\ntype=(Sigma (_0 : Type), _0)\nvalue=((Pi (_0 : Type), (Pi (_1 : _0), _0)), (fun _0 => (fun _1 => _1)))\ncost=75\n",
    },
    Case {
        script: b"eval (((Pi (X : Type), X), (fun (X : Type) => fun (x : X) => x)) : (Sigma (X : Type), X))",
        lines: b"answer=9\nat=28\nlayer=typing\ncost=38\n",
    },
    Case {
        script: b"check ((Type, (fun (X : Type) => fun (x : X) => x)) : (Sigma (X : Type), X))",
        lines: b"answer=9\nat=8\nlayer=typing\ncost=14\n",
    },
    Case {
        script: b"check ((Type, Type) : (Pi (X : Type), X -> X))",
        lines: b"answer=8\nat=7\nlayer=typing\ncost=20\n",
    },
    Case {
        script: b"check (((Pi (X : Type), X -> X), (fun (X : Type) => fun (x : X) => x)) : (exists (X : Type), X))",
        lines: b"answer=8\nat=7\nlayer=typing\ncost=12\n",
    },
    Case {
        script: b"def p : (Pi (X : Type), X -> X) * (Pi (X : Type), X -> X) := (fun X => fun x => x, fun Y => fun y => y)",
        lines: b"answer=0\ntype=(Sigma (_0 : (Pi (_0 : Type), (Pi (_1 : _0), _0))), (Pi (_1 : Type), (Pi (_2 : _1), _1)))\nvalue=((fun _0 => (fun _1 => _1)), (fun _0 => (fun _1 => _1)))\ncost=106\n",
    },
    Case {
        script: b"eval fst (snd (((Pi (X : Type), X), ((Pi (X : Type), X -> X), (Pi (X : Type), X))) : Type * Type * Type))",
        lines: b"answer=0\ntype=Type\nvalue=(Pi (_0 : Type), (Pi (_1 : _0), _0))\ncost=90\n",
    },
    Case {
        script: b"check fst (Type, Type)",
        lines: b"answer=7\nat=10\nlayer=typing\ncost=1\n",
    },
    Case {
        script: b"check fst Type",
        lines: b"answer=8\nat=6\nlayer=typing\ncost=2\n",
    },
    Case {
        script: b"check snd (fun (X : Type) => fun (x : X) => x)",
        lines: b"answer=8\nat=6\nlayer=typing\ncost=12\n",
    },
    Case {
        script: b"check fun (p : (exists (X : Type), X)) => fst p",
        lines: b"answer=8\nat=42\nlayer=typing\ncost=17\n",
    },
];

#[test]
fn cases_a(rt: HostRuntime) -> Result<(), Fail> {
    assert_eq!(rt; first_wrong(rt.alloc(), &Lcplus, &CASES_A)?, None);
    Ok(())
}

#[test]
fn cases_b(rt: HostRuntime) -> Result<(), Fail> {
    assert_eq!(rt; first_wrong(rt.alloc(), &Lcplus, &CASES_B)?, None);
    Ok(())
}

#[test]
fn cases_c(rt: HostRuntime) -> Result<(), Fail> {
    assert_eq!(rt; first_wrong(rt.alloc(), &Lcplus, &CASES_C)?, None);
    Ok(())
}

#[test]
fn cases_d(rt: HostRuntime) -> Result<(), Fail> {
    assert_eq!(rt; first_wrong(rt.alloc(), &Lcplus, &CASES_D)?, None);
    Ok(())
}

#[test]
fn cases_e(rt: HostRuntime) -> Result<(), Fail> {
    assert_eq!(rt; first_wrong(rt.alloc(), &Lcplus, &CASES_E)?, None);
    Ok(())
}
