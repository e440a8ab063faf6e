//! Statements judged in LC+, with their types, values, refusals and costs, worked from the rules.
use crate::case::{Case, first_wrong};
use sorts::Lcplus;
use std::test::Fail;

static CASES_F: [Case; 24] = [
    Case {
        script: b"eval fun (p : (Sigma (X : Type), X)) => fst p",
        lines: b"answer=0\ntype=(Pi (_0 : (Sigma (_0 : Type), _0)), Type)\nvalue=(fun _0 => (fst _0))\ncost=30\n",
    },
    Case {
        script: b"eval fun (p : (Sigma (X : Type), X)) => snd p",
        lines: b"answer=0\ntype=(Pi (_0 : (Sigma (_0 : Type), _0)), (fst _0))\nvalue=(fun _0 => (snd _0))\ncost=35\n",
    },
    Case {
        script: b"check snd (((Pi (X : Type), X -> X), (fun (X : Type) => fun (x : X) => x)) : (Sigma (X : Type), X))",
        lines: b"answer=0\ntype=(Pi (_0 : Type), (Pi (_1 : _0), _0))\nvalue=-\ncost=86\n",
    },
    Case {
        script: b"eval snd (((Pi (X : Type), X -> X), (fun (X : Type) => fun (x : X) => x)) : (Sigma (X : Type), X))",
        lines: b"answer=0\ntype=(Pi (_0 : Type), (Pi (_1 : _0), _0))\nvalue=(fun _0 => (fun _1 => _1))\ncost=104\n",
    },
    Case {
        script: b"eval fun (A : Type) => fun (p : A * A) => ((snd p, fst p) : A * A)",
        lines: b"answer=0\ntype=(Pi (_0 : Type), (Pi (_1 : (Sigma (_1 : _0), _0)), (Sigma (_2 : _0), _0)))\nvalue=(fun _0 => (fun _1 => ((snd _1), (fst _1))))\ncost=73\n",
    },
    Case {
        script: b"eval fun (A : Type) => fun (p : A * A * A) => fst (snd p)",
        lines: b"answer=0\ntype=(Pi (_0 : Type), (Pi (_1 : (Sigma (_1 : _0), (Sigma (_2 : _0), _0))), _0))\nvalue=(fun _0 => (fun _1 => (fst (snd _1))))\ncost=62\n",
    },
    Case {
        script: b"check fun (A : Type) => fun (B : A -> Type) => fun (p : Sigma (x : A), B x * B x) => fst (snd p)",
        lines: b"answer=0\ntype=(Pi (_0 : Type), (Pi (_1 : (Pi (_1 : _0), Type)), (Pi (_2 : (Sigma (_2 : _0), (Sigma (_3 : (_1 _2)), (_1 _2)))), (_1 (fst _2)))))\nvalue=-\ncost=111\n",
    },
    Case {
        script: b"eval {(Pi (X : Type), X -> X), (fun (X : Type) => fun (x : X) => x)}",
        lines: b"answer=7\nat=5\nlayer=typing\ncost=0\n",
    },
    Case {
        script: b"eval ({(Pi (X : Type), X -> X), (fun (X : Type) => fun (x : X) => x)} : (exists (X : Type), X))",
        lines: b"answer=0\ntype=(exists (_0 : Type), _0)\nvalue={(Pi (_0 : Type), (Pi (_1 : _0), _0)), (fun _0 => (fun _1 => _1))}\ncost=75\n",
    },
    Case {
        script: b"check ({(Pi (X : Type), X), (fun (X : Type) => fun (x : X) => x)} : (exists (X : Type), X))",
        lines: b"answer=9\nat=29\nlayer=typing\ncost=38\n",
    },
    Case {
        script: b"check ({(Pi (X : Type), X -> X), (fun (X : Type) => fun (x : X) => x)} : (Sigma (X : Type), X))",
        lines: b"answer=8\nat=7\nlayer=typing\ncost=12\n",
    },
    Case {
        script: b"check fun (p : (exists (X : Type), X)) => let {x, y} := p in y",
        lines: b"answer=10\nat=42\nlayer=typing\ncost=21\n",
    },
    Case {
        script: b"eval fun (p : (exists (X : Type), X)) => let {x, y} := p in x",
        lines: b"answer=0\ntype=(Pi (_0 : (exists (_0 : Type), _0)), Type)\nvalue=(fun _0 => (let {_1, _2} := _0 in _1))\ncost=39\n",
    },
    Case {
        script: b"check fun (p : (exists (X : Type), X)) => let {x, y} := p in fun (z : x) => Type",
        lines: b"answer=10\nat=42\nlayer=typing\ncost=25\n",
    },
    Case {
        script: b"check fun (A : Type) => fun (p : (exists (X : Type), X)) => let {x, y} := p in fun (z : A) => z",
        lines: b"answer=0\ntype=(Pi (_0 : Type), (Pi (_1 : (exists (_1 : Type), _1)), (Pi (_2 : _0), _0)))\nvalue=-\ncost=43\n",
    },
    Case {
        script: b"check fun (p : (Sigma (X : Type), X)) => let {x, y} := p in x",
        lines: b"answer=8\nat=41\nlayer=typing\ncost=17\n",
    },
    Case {
        script: b"check let {x, y} := {(Pi (X : Type), X -> X), (fun (X : Type) => fun (x : X) => x)} in x",
        lines: b"answer=7\nat=20\nlayer=typing\ncost=1\n",
    },
    Case {
        script: b"eval let {x, y} := ({(Pi (X : Type), X), (Pi (X : Type), X -> X)} : exists (Z : Type), Type) in x -> y",
        lines: b"answer=0\ntype=Type\nvalue=(Pi (_0 : (Pi (_0 : Type), _0)), (Pi (_1 : Type), (Pi (_2 : _1), _1)))\ncost=90\n",
    },
    Case {
        script: b"eval fun (A : Type) => fun (B : Type) => let {x, x} := ({A, B} : exists (Z : Type), Type) in x",
        lines: b"answer=0\ntype=(Pi (_0 : Type), (Pi (_1 : Type), Type))\nvalue=(fun _0 => (fun _1 => _1))\ncost=53\n",
    },
    Case {
        script: b"check inl Type",
        lines: b"answer=7\nat=6\nlayer=typing\ncost=0\n",
    },
    Case {
        script: b"def x := inr (fun (X : Type) => fun (x : X) => x)",
        lines: b"answer=7\nat=9\nlayer=typing\ncost=0\n",
    },
    Case {
        script: b"eval (inl (fun (X : Type) => fun (x : X) => x) : (Pi (X : Type), X -> X) + (Pi (X : Type), X))",
        lines: b"answer=0\ntype=((Pi (_0 : Type), (Pi (_1 : _0), _0)) + (Pi (_0 : Type), _0))\nvalue=(inl (fun _0 => (fun _1 => _1)))\ncost=65\n",
    },
    Case {
        script: b"eval (inr (fun (X : Type) => fun (x : X) => x) : (Pi (X : Type), X) + (Pi (X : Type), X -> X))",
        lines: b"answer=0\ntype=((Pi (_0 : Type), _0) + (Pi (_0 : Type), (Pi (_1 : _0), _0)))\nvalue=(inr (fun _0 => (fun _1 => _1)))\ncost=65\n",
    },
    Case {
        script: b"check (inl (fun (X : Type) => fun (x : X) => x) : (Pi (X : Type), X) + (Pi (X : Type), X -> X))",
        lines: b"answer=9\nat=12\nlayer=typing\ncost=44\n",
    },
];

static CASES_G: [Case; 24] = [
    Case {
        script: b"check (inr (fun (X : Type) => fun (x : X) => x) : (Pi (X : Type), X -> X))",
        lines: b"answer=8\nat=7\nlayer=typing\ncost=20\n",
    },
    Case {
        script: b"eval (inl (fun X => fun x => x) : (Pi (X : Type), X -> X) + (Pi (X : Type), X))",
        lines: b"answer=0\ntype=((Pi (_0 : Type), (Pi (_1 : _0), _0)) + (Pi (_0 : Type), _0))\nvalue=(inl (fun _0 => (fun _1 => _1)))\ncost=60\n",
    },
    Case {
        script: b"check match (fun (X : Type) => fun (x : X) => x) with | inl x => x | inr y => y end",
        lines: b"answer=8\nat=6\nlayer=typing\ncost=12\n",
    },
    Case {
        script: b"check match inl Type with | inl x => x | inr y => y end",
        lines: b"answer=7\nat=12\nlayer=typing\ncost=1\n",
    },
    Case {
        script: b"eval match (inl (Pi (X : Type), X) : Type + Type) with | inl x => x -> x | inr y => y end",
        lines: b"answer=0\ntype=Type\nvalue=(Pi (_0 : (Pi (_0 : Type), _0)), (Pi (_1 : Type), _1))\ncost=62\n",
    },
    Case {
        script: b"eval match (inr (Pi (X : Type), X) : Type + Type) with | inr y => y -> y | inl x => x end",
        lines: b"answer=0\ntype=Type\nvalue=(Pi (_0 : (Pi (_0 : Type), _0)), (Pi (_1 : Type), _1))\ncost=62\n",
    },
    Case {
        script: b"check fun (s : Type + Type) => match s with | inl x => x | inr y => Type end",
        lines: b"answer=9\nat=31\nlayer=typing\ncost=20\n",
    },
    Case {
        script: b"check fun (A : Type) => fun (s : A + A) => match s with | inl x => x | inr y => y end",
        lines: b"answer=0\ntype=(Pi (_0 : Type), (Pi (_1 : (_0 + _0)), _0))\nvalue=-\ncost=35\n",
    },
    Case {
        script: b"check fun (s : (Sigma (X : Type), X) + Type) => match s with | inl x => snd x | inr y => y end",
        lines: b"answer=10\nat=48\nlayer=typing\ncost=33\n",
    },
    Case {
        script: b"check fun (s : (Pi (X : Type), X) + (Sigma (X : Type), X)) => match s with | inl x => x | inr y => snd y end",
        lines: b"answer=10\nat=62\nlayer=typing\ncost=51\n",
    },
    Case {
        script: b"check fun (s : (Pi (X : Type), X) + (Sigma (X : Type), X)) => match s with | inr y => snd y | inl x => x end",
        lines: b"answer=10\nat=62\nlayer=typing\ncost=51\n",
    },
    Case {
        script: b"eval (fun (X : Type) => fun (s : X -> X) => fun (z : X) => z)",
        lines: b"answer=0\ntype=(Pi (_0 : Type), (Pi (_1 : (Pi (_1 : _0), _0)), (Pi (_2 : _0), _0)))\nvalue=(fun _0 => (fun _1 => (fun _2 => _2)))\ncost=45\n",
    },
    Case {
        script: b"check fun (A : Type) => fun (B : A -> Type) => fun (p : Sigma (x : A), B x) => (snd p : B (fst p))",
        lines: b"answer=0\ntype=(Pi (_0 : Type), (Pi (_1 : (Pi (_1 : _0), Type)), (Pi (_2 : (Sigma (_2 : _0), (_1 _2))), (_1 (fst _2)))))\nvalue=-\ncost=92\n",
    },
    Case {
        script: b"def k : Kind := Type -> Type",
        lines: b"answer=0\ntype=Kind\nvalue=(Pi (_0 : Type), Type)\ncost=17\n",
    },
    Case {
        script: b"theorem t : Kind := (Pi (X : Type), X)",
        lines: b"answer=9\nat=21\nlayer=typing\ncost=8\n",
    },
    Case {
        script: b"lemma t : (Pi (X : Type), X -> X) -> (Pi (X : Type), X -> X) := (fun (X : Type) => fun (x : X) => x)",
        lines: b"answer=9\nat=65\nlayer=typing\ncost=60\n",
    },
    Case {
        script: b"axiom x : (Type : Kind)",
        lines: b"answer=0\ntype=Type\nvalue=-\ncost=7\n",
    },
    Case {
        script: b"constant x : (fun (A : Type) => A -> A) (Pi (X : Type), X)",
        lines: b"answer=0\ntype=(Pi (_0 : (Pi (_0 : Type), _0)), (Pi (_1 : Type), _1))\nvalue=-\ncost=57\n",
    },
    Case {
        script: b"axiom x : let T := Type in T -> T",
        lines: b"answer=0\ntype=(Pi (_0 : Type), Type)\nvalue=-\ncost=26\n",
    },
    Case {
        script: b"axiom x : ((fun (X : Type) => fun (x : X) => x) (Pi (X : Type), X -> X)) (fun (X : Type) => fun (x : X) => x)",
        lines: b"answer=8\nat=12\nlayer=typing\ncost=76\n",
    },
    Case {
        script: b"axiom x : ((fun (X : Type) => fun (x : X) => x) : (Pi (X : Type), X -> X))",
        lines: b"answer=8\nat=10\nlayer=typing\ncost=31\n",
    },
    Case {
        script: b"axiom x : (Type, Type)",
        lines: b"answer=7\nat=10\nlayer=typing\ncost=0\n",
    },
    Case {
        script: b"axiom x : Type -> (fun y => y)",
        lines: b"answer=7\nat=19\nlayer=typing\ncost=4\n",
    },
    Case {
        script: b"axiom x : Type -> ((fun (X : Type) => fun (x : X) => x) + Type)",
        lines: b"answer=8\nat=20\nlayer=typing\ncost=16\n",
    },
];

static CASES_H: [Case; 24] = [
    Case {
        script: b"axiom x : (fun (X : Type) => fun (x : X) => x) Type",
        lines: b"answer=9\nat=47\nlayer=typing\ncost=14\n",
    },
    Case {
        script: b"axiom x : (exists (X : Type), X) -> ((fun (p : (exists (X : Type), X)) => let {x, y} := p in y) Type)",
        lines: b"answer=10\nat=74\nlayer=typing\ncost=34\n",
    },
    Case {
        script: b"axiom x : Pi (s : Type + Type), match s with | inl x => x | inr y => y -> y end",
        lines: b"answer=0\ntype=(Pi (_0 : (Type + Type)), (match _0 with | inl _1 => _1 | inr _1 => (Pi (_2 : _1), _1) end))\nvalue=-\ncost=51\n",
    },
    Case {
        script: b"check fun (p : exists (Z : Type), Type) => fun (v : let {x, y} := p in x -> y) => v",
        lines: b"answer=0\ntype=(Pi (_0 : (exists (_0 : Type), Type)), (Pi (_1 : (let {_1, _2} := _0 in (Pi (_3 : _1), _2))), (let {_2, _3} := _0 in (Pi (_4 : _2), _3))))\nvalue=-\ncost=58\n",
    },
    Case {
        script: b"check fun (p : exists (Z : Type), Type) => fun (v : let {x, y} := p in x) => (v : let {x, y} := p in y)",
        lines: b"answer=9\nat=78\nlayer=typing\ncost=49\n",
    },
    Case {
        script: b"check fun (p : exists (Z : Type), Type) => fun (v : let {x, y} := p in x) => (v : let {y, x} := p in y)",
        lines: b"answer=0\ntype=(Pi (_0 : (exists (_0 : Type), Type)), (Pi (_1 : (let {_1, _2} := _0 in _1)), (let {_2, _3} := _0 in _2)))\nvalue=-\ncost=61\n",
    },
    Case {
        script: b"check fun (P : (Type -> Type) -> Type) => fun (p : P (fun (x : Type) => x)) => (p : P (fun y => y))",
        lines: b"answer=0\ntype=(Pi (_0 : (Pi (_0 : (Pi (_0 : Type), Type)), Type)), (Pi (_1 : (_0 (fun _1 => _1))), (_0 (fun _2 => _2))))\nvalue=-\ncost=86\n",
    },
    Case {
        script: b"check fun (p : (Sigma (X : Type), X)) => (p : (exists (X : Type), X))",
        lines: b"answer=9\nat=42\nlayer=typing\ncost=28\n",
    },
    Case {
        script: b"check fun (A : Type) => fun (P : A + A -> Type) => fun (a : A) => fun (p : P (inl a)) => (p : P (inr a))",
        lines: b"answer=9\nat=90\nlayer=typing\ncost=71\n",
    },
    Case {
        script: b"check fun (p : (Sigma (X : Type), X)) => (snd p : fst p)",
        lines: b"answer=0\ntype=(Pi (_0 : (Sigma (_0 : Type), _0)), (fst _0))\nvalue=-\ncost=37\n",
    },
    Case {
        script: b"check fun (p : (Sigma (X : Type), X)) => fun (q : (Sigma (X : Type), X)) => (snd p : fst q)",
        lines: b"answer=9\nat=77\nlayer=typing\ncost=42\n",
    },
    Case {
        script: b"check fun (p : (Sigma (X : Type), X)) => snd ((fun (q : (Sigma (X : Type), X)) => q) p)",
        lines: b"answer=0\ntype=(Pi (_0 : (Sigma (_0 : Type), _0)), (fst _0))\nvalue=-\ncost=65\n",
    },
    Case {
        script: b"eval fun (A : Type) => fun (f : A -> A * A) => fun (a : A) => fst (f a)",
        lines: b"answer=0\ntype=(Pi (_0 : Type), (Pi (_1 : (Pi (_1 : _0), (Sigma (_2 : _0), _0))), (Pi (_2 : _0), _0)))\nvalue=(fun _0 => (fun _1 => (fun _2 => (fst (_1 _2)))))\ncost=77\n",
    },
    Case {
        script: b"eval fun (A : Type) => fun (p : (A -> A) * A) => (fst p) (snd p)",
        lines: b"answer=0\ntype=(Pi (_0 : Type), (Pi (_1 : (Sigma (_1 : (Pi (_1 : _0), _0)), _0)), _0))\nvalue=(fun _0 => (fun _1 => ((fst _1) (snd _1))))\ncost=74\n",
    },
    Case {
        script: b"eval fun (A : Type) => fun (e : exists (Z : Type), A -> A) => fun (a : A) => (let {x, f} := e in f) a",
        lines: b"answer=0\ntype=(Pi (_0 : Type), (Pi (_1 : (exists (_1 : Type), (Pi (_2 : _0), _0))), (Pi (_2 : _0), _0)))\nvalue=(fun _0 => (fun _1 => (fun _2 => ((let {_3, _4} := _1 in _4) _2))))\ncost=84\n",
    },
    Case {
        script: b"check fun (A : Type) => fun (s : A + A) => match s with | inl x => fun z => z | inr y => y end",
        lines: b"answer=7\nat=67\nlayer=typing\ncost=20\n",
    },
    Case {
        script: b"check fun (A : Type) => fun (s : A + A) => match s with | inl x => x | inr y => fun z => z end",
        lines: b"answer=7\nat=80\nlayer=typing\ncost=24\n",
    },
    Case {
        script: b"check fun (A : Type) => fun (s : A + A) => match s with | inl x => (x : Type) | inr y => y end",
        lines: b"answer=9\nat=68\nlayer=typing\ncost=24\n",
    },
    Case {
        script: b"check (((Pi (X : Type), X -> X), (Type, Type)) : (Sigma (X : Type), X))",
        lines: b"answer=8\nat=33\nlayer=typing\ncost=37\n",
    },
    Case {
        script: b"eval (((Pi (X : Type), X -> X), fun X => fun x => x) : (Sigma (X : Type), X))",
        lines: b"answer=0\ntype=(Sigma (_0 : Type), _0)\nvalue=((Pi (_0 : Type), (Pi (_1 : _0), _0)), (fun _0 => (fun _1 => _1)))\ncost=70\n",
    },
    Case {
        script: b"eval ({(Pi (X : Type), X -> X), fun x => x} : exists (X : Type), X -> X)",
        lines: b"answer=0\ntype=(exists (_0 : Type), (Pi (_1 : _0), _0))\nvalue={(Pi (_0 : Type), (Pi (_1 : _0), _0)), (fun _0 => _0)}\ncost=94\n",
    },
    Case {
        script: b"eval let {x, y} := ({(Pi (X : Type), X -> X), fun X => X} : exists (X : Type), Type -> Type) in y (y x)",
        lines: b"answer=0\ntype=Type\nvalue=(Pi (_0 : Type), (Pi (_1 : _0), _0))\ncost=134\n",
    },
    Case {
        script: b"check fun (p : (exists (X : Type), X)) => let {x, y} := p in (y : Type)",
        lines: b"answer=9\nat=62\nlayer=typing\ncost=23\n",
    },
    Case {
        script: b"check fun (p : (exists (X : Type), X)) => let {x, y} := p in {x, y}",
        lines: b"answer=7\nat=61\nlayer=typing\ncost=19\n",
    },
];

static CASES_I: [Case; 24] = [
    Case {
        script: b"eval fun (p : (exists (X : Type), X)) => let {x, y} := p in ({x, y} : (exists (X : Type), X))",
        lines: b"answer=0\ntype=(Pi (_0 : (exists (_0 : Type), _0)), (exists (_1 : Type), _1))\nvalue=(fun _0 => (let {_1, _2} := _0 in {_1, _2}))\ncost=66\n",
    },
    Case {
        script: b"check let k := Type -> Type in fun (f : k) => f",
        lines: b"answer=0\ntype=(Pi (_0 : (Pi (_0 : Type), Type)), (Pi (_1 : Type), Type))\nvalue=-\ncost=38\n",
    },
    Case {
        script: b"check (fun (x : Type) => Type) Type",
        lines: b"answer=9\nat=31\nlayer=typing\ncost=8\n",
    },
    Case {
        script: b"check (fun (x : Type) => Type) (Pi (X : Type), X)",
        lines: b"answer=0\ntype=Kind\nvalue=-\ncost=17\n",
    },
    Case {
        script: b"check ((((((((((((((((((((Kind))))))))))))))))))))",
        lines: b"answer=11\nat=26\nlayer=typing\ncost=1\n",
    },
    Case {
        script: b"check fun (s : (Sigma (X : Type), X) + Type) => match s with | inl x => snd x | inr y => (y, y) end",
        lines: b"answer=10\nat=48\nlayer=typing\ncost=33\n",
    },
    Case {
        script: b"check fun (s : Type + (Sigma (X : Type), X)) => match s with | inl x => Type | inr y => snd y end",
        lines: b"answer=10\nat=48\nlayer=typing\ncost=36\n",
    },
    Case {
        script: b"check (fun x => x : Type -> Type)",
        lines: b"answer=0\ntype=(Pi (_0 : Type), Type)\nvalue=-\ncost=19\n",
    },
    Case {
        script: b"eval (Pi (X : Type), X : Type)",
        lines: b"answer=0\ntype=Type\nvalue=(Pi (_0 : Type), _0)\ncost=18\n",
    },
    Case {
        script: b"check (let T := Type in T : Kind)",
        lines: b"answer=0\ntype=Kind\nvalue=-\ncost=11\n",
    },
    Case {
        script: b"check (let T := Type in T : Type)",
        lines: b"answer=9\nat=7\nlayer=typing\ncost=9\n",
    },
    Case {
        script: b"eval fun (A : Type) => fun (B : Type) => fun (C : Type) => A * B + C -> B * C",
        lines: b"answer=0\ntype=(Pi (_0 : Type), (Pi (_1 : Type), (Pi (_2 : Type), Type)))\nvalue=(fun _0 => (fun _1 => (fun _2 => (Pi (_3 : ((Sigma (_3 : _0), _1) + _2)), (Sigma (_4 : _1), _2)))))\ncost=75\n",
    },
    Case {
        script: b"eval fun (A : Type) => fun (B : Type) => fun (C : Type) => A + B + C",
        lines: b"answer=0\ntype=(Pi (_0 : Type), (Pi (_1 : Type), (Pi (_2 : Type), Type)))\nvalue=(fun _0 => (fun _1 => (fun _2 => (_0 + (_1 + _2)))))\ncost=47\n",
    },
    Case {
        script: b"eval fun (f : Type -> Type) => fun (A : Type) => f A -> f (f A)",
        lines: b"answer=0\ntype=(Pi (_0 : (Pi (_0 : Type), Type)), (Pi (_1 : Type), Type))\nvalue=(fun _0 => (fun _1 => (Pi (_2 : (_0 _1)), (_0 (_0 _1)))))\ncost=81\n",
    },
    Case {
        script: b"eval fun (A : Type) => fun (p : (A -> A) * A) => fst p (snd p)",
        lines: b"answer=0\ntype=(Pi (_0 : Type), (Pi (_1 : (Sigma (_1 : (Pi (_1 : _0), _0)), _0)), _0))\nvalue=(fun _0 => (fun _1 => ((fst _1) (snd _1))))\ncost=74\n",
    },
    Case {
        script: b"check fun (p : (Sigma (X : Type), X)) => fst p Type",
        lines: b"answer=8\nat=41\nlayer=typing\ncost=18\n",
    },
    Case {
        script: b"check fun (f : forall (X : Type), X) => (f : Pi (Y : Type), Y)",
        lines: b"answer=0\ntype=(Pi (_0 : (Pi (_0 : Type), _0)), (Pi (_1 : Type), _1))\nvalue=-\ncost=36\n",
    },
    Case {
        script: b"eval Type -> Pi (X : Type), X -> X",
        lines: b"answer=0\ntype=Type\nvalue=(Pi (_0 : Type), (Pi (_1 : Type), (Pi (_2 : _1), _1)))\ncost=34\n",
    },
    Case {
        script: b"eval fun (x : Type) => Pi (y : x), x -> x -> x",
        lines: b"answer=0\ntype=(Pi (_0 : Type), Type)\nvalue=(fun _0 => (Pi (_1 : _0), (Pi (_2 : _0), (Pi (_3 : _0), _0))))\ncost=45\n",
    },
    Case {
        script: b"eval fun (_0 : Type) => fun (x' : _0) => fun (_' : _0) => x'",
        lines: b"answer=0\ntype=(Pi (_0 : Type), (Pi (_1 : _0), (Pi (_2 : _0), _0)))\nvalue=(fun _0 => (fun _1 => (fun _2 => _1)))\ncost=35\n",
    },
    Case {
        script: b"eval fun (f : Type -> Type) => fun (s : Type + Type) => f match s with | inl x => x | inr y => y end",
        lines: b"answer=0\ntype=(Pi (_0 : (Pi (_0 : Type), Type)), (Pi (_1 : (Type + Type)), Type))\nvalue=(fun _0 => (fun _1 => (_0 (match _1 with | inl _2 => _2 | inr _2 => _2 end))))\ncost=70\n",
    },
    Case {
        script: b"eval fun (A : Type) => fun (f : A * A -> A) => fun (a : A) => f (a, a)",
        lines: b"answer=0\ntype=(Pi (_0 : Type), (Pi (_1 : (Pi (_1 : (Sigma (_1 : _0), _0)), _0)), (Pi (_2 : _0), _0)))\nvalue=(fun _0 => (fun _1 => (fun _2 => (_1 (_2, _2)))))\ncost=82\n",
    },
    Case {
        script: b"eval fun (A : Type) => fun (f : (exists (x : A), A) -> A) => fun (a : A) => f {a, a}",
        lines: b"answer=0\ntype=(Pi (_0 : Type), (Pi (_1 : (Pi (_1 : (exists (_1 : _0), _0)), _0)), (Pi (_2 : _0), _0)))\nvalue=(fun _0 => (fun _1 => (fun _2 => (_1 {_2, _2}))))\ncost=82\n",
    },
    Case {
        script: b"def x : ((fun (X : Type) => fun (x : X) => x) : (Pi (X : Type), X -> X)) := Type",
        lines: b"answer=8\nat=8\nlayer=typing\ncost=32\n",
    },
];

static CASES_J: [Case; 2] = [
    Case {
        script: b"def x : ((Type) -> (fun (X : Type) => fun (x : X) => x)) := Type",
        lines: b"answer=8\nat=10\nlayer=typing\ncost=16\n",
    },
    Case {
        script: b"check let x : ((fun (X : Type) => fun (x : X) => x)) := Type in Type",
        lines: b"answer=8\nat=16\nlayer=typing\ncost=13\n",
    },
];

#[test]
fn cases_f(rt: HostRuntime) -> Result<(), Fail> {
    assert_eq!(rt; first_wrong(rt.alloc(), &Lcplus, &CASES_F)?, None);
    Ok(())
}

#[test]
fn cases_g(rt: HostRuntime) -> Result<(), Fail> {
    assert_eq!(rt; first_wrong(rt.alloc(), &Lcplus, &CASES_G)?, None);
    Ok(())
}

#[test]
fn cases_h(rt: HostRuntime) -> Result<(), Fail> {
    assert_eq!(rt; first_wrong(rt.alloc(), &Lcplus, &CASES_H)?, None);
    Ok(())
}

#[test]
fn cases_i(rt: HostRuntime) -> Result<(), Fail> {
    assert_eq!(rt; first_wrong(rt.alloc(), &Lcplus, &CASES_I)?, None);
    Ok(())
}

#[test]
fn cases_j(rt: HostRuntime) -> Result<(), Fail> {
    assert_eq!(rt; first_wrong(rt.alloc(), &Lcplus, &CASES_J)?, None);
    Ok(())
}
