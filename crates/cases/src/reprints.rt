//! Scripts, and the terms that are read from them, printed.
use crate::case::{Case, blanks, first_wrong};
use report::reprint::reprint_text;
use std::alloc::{AllocError, Global};
use std::test::Fail;

// Four tables, since one constant may have 10,000 expressions.
static CASES_A: [Case<'static>; 21] = [
    // Nothing to read.
    Case {
        script: b"",
        lines: b"",
    },
    Case {
        script: b" \n-- no statement\n",
        lines: b"",
    },
    // The kinds of statement, and the two forms of a def. A written type makes an ascription.
    Case {
        script: b"axiom A : Type\nconstant a : A\ndef b := a\ntheorem c : A := b\nlemma d := c\n\
            check d\neval b",
        lines: b"statement=1\nanswer=0\nat=-\nterm=Type\n\
            statement=2\nanswer=0\nat=-\nterm=A\n\
            statement=3\nanswer=0\nat=-\nterm=a\n\
            statement=4\nanswer=0\nat=-\nterm=(b : A)\n\
            statement=5\nanswer=0\nat=-\nterm=c\n\
            statement=6\nanswer=0\nat=-\nterm=d\n\
            statement=7\nanswer=0\nat=-\nterm=b\n",
    },
    Case {
        script: b"def x : Type := Kind\ntheorem y := x\nlemma z : x := y\neval z",
        lines: b"statement=1\nanswer=0\nat=-\nterm=(Kind : Type)\n\
            statement=2\nanswer=0\nat=-\nterm=x\n\
            statement=3\nanswer=0\nat=-\nterm=(y : x)\n\
            statement=4\nanswer=0\nat=-\nterm=z\n",
    },
    // Sorts.
    Case {
        script: b"check Type check Prop check Kind check Sort 0 check Sort 1 check Sort 2 check Sort 65535",
        lines: b"statement=1\nanswer=0\nat=-\nterm=Type\n\
            statement=2\nanswer=0\nat=-\nterm=Type\n\
            statement=3\nanswer=0\nat=-\nterm=Kind\n\
            statement=4\nanswer=0\nat=-\nterm=Type\n\
            statement=5\nanswer=0\nat=-\nterm=Kind\n\
            statement=6\nanswer=0\nat=-\nterm=Sort 2\n\
            statement=7\nanswer=0\nat=-\nterm=Sort 65535\n",
    },
    // Functions and quantifiers.
    Case {
        script: b"check fun x => x",
        lines: b"statement=1\nanswer=0\nat=-\nterm=(fun _0 => _0)\n",
    },
    Case {
        script: b"check fun (x : Type) => x",
        lines: b"statement=1\nanswer=0\nat=-\nterm=(fun (_0 : Type) => _0)\n",
    },
    Case {
        script: b"check fun x => fun y => x y\ncheck fun (x : Type) => fun (y : x) => y",
        lines: b"statement=1\nanswer=0\nat=-\nterm=(fun _0 => (fun _1 => (_0 _1)))\n\
            statement=2\nanswer=0\nat=-\nterm=(fun (_0 : Type) => (fun (_1 : _0) => _1))\n",
    },
    Case {
        script: b"check Pi (x : Type), x\ncheck forall (x : Type), x\n\
            check Sigma (x : Type), x\ncheck exists (x : Type), x",
        lines: b"statement=1\nanswer=0\nat=-\nterm=(Pi (_0 : Type), _0)\n\
            statement=2\nanswer=0\nat=-\nterm=(Pi (_0 : Type), _0)\n\
            statement=3\nanswer=0\nat=-\nterm=(Sigma (_0 : Type), _0)\n\
            statement=4\nanswer=0\nat=-\nterm=(exists (_0 : Type), _0)\n",
    },
    Case {
        script: b"check Pi (x : Type), Sigma (y : x), x y",
        lines: b"statement=1\nanswer=0\nat=-\nterm=(Pi (_0 : Type), (Sigma (_1 : _0), (_0 _1)))\n",
    },
    // Let, with and without a type, and with two binders.
    Case {
        script: b"check let x := Type in x",
        lines: b"statement=1\nanswer=0\nat=-\nterm=(let _0 := Type in _0)\n",
    },
    Case {
        script: b"check let x : Kind := Type in x",
        lines: b"statement=1\nanswer=0\nat=-\nterm=(let _0 := (Type : Kind) in _0)\n",
    },
    Case {
        script: b"check let {x, y} := Type in x y\ncheck let {x, y} := Type in y",
        lines: b"statement=1\nanswer=0\nat=-\nterm=(let {_0, _1} := Type in (_0 _1))\n\
            statement=2\nanswer=0\nat=-\nterm=(let {_0, _1} := Type in _1)\n",
    },
    Case {
        script: b"check let {x, x} := Type in x",
        lines: b"statement=1\nanswer=0\nat=-\nterm=(let {_0, _1} := Type in _1)\n",
    },
    Case {
        script: b"check let x := let y := Type in y in x",
        lines: b"statement=1\nanswer=0\nat=-\nterm=(let _0 := (let _0 := Type in _0) in _0)\n",
    },
    // What joins: to the right, the arrow weakest, then the sum, then the product.
    Case {
        script: b"check Type -> Kind -> Sort 2\ncheck (Type -> Kind) -> Sort 2",
        lines: b"statement=1\nanswer=0\nat=-\nterm=(Pi (_0 : Type), (Pi (_1 : Kind), Sort 2))\n\
            statement=2\nanswer=0\nat=-\nterm=(Pi (_0 : (Pi (_0 : Type), Kind)), Sort 2)\n",
    },
    Case {
        script: b"check Type + Kind + Sort 2\ncheck (Type + Kind) + Sort 2",
        lines: b"statement=1\nanswer=0\nat=-\nterm=(Type + (Kind + Sort 2))\n\
            statement=2\nanswer=0\nat=-\nterm=((Type + Kind) + Sort 2)\n",
    },
    Case {
        script: b"check Type * Kind * Sort 2\ncheck (Type * Kind) * Sort 2",
        lines: b"statement=1\nanswer=0\nat=-\nterm=(Sigma (_0 : Type), (Sigma (_1 : Kind), Sort 2))\n\
            statement=2\nanswer=0\nat=-\nterm=(Sigma (_0 : (Sigma (_0 : Type), Kind)), Sort 2)\n",
    },
    Case {
        script: b"check Type + Kind * Sort 2\ncheck Type * Kind + Sort 2\n\
            check (Type + Kind) * Sort 2",
        lines: b"statement=1\nanswer=0\nat=-\nterm=(Type + (Sigma (_0 : Kind), Sort 2))\n\
            statement=2\nanswer=0\nat=-\nterm=((Sigma (_0 : Type), Kind) + Sort 2)\n\
            statement=3\nanswer=0\nat=-\nterm=(Sigma (_0 : (Type + Kind)), Sort 2)\n",
    },
    Case {
        script: b"check Type -> Kind + Sort 2\ncheck Type + Kind -> Sort 2\n\
            check Type * Kind -> Sort 2",
        lines: b"statement=1\nanswer=0\nat=-\nterm=(Pi (_0 : Type), (Kind + Sort 2))\n\
            statement=2\nanswer=0\nat=-\nterm=(Pi (_0 : (Type + Kind)), Sort 2)\n\
            statement=3\nanswer=0\nat=-\nterm=(Pi (_0 : (Sigma (_0 : Type), Kind)), Sort 2)\n",
    },
    Case {
        script: b"check Type /\\ Kind \\/ Sort 2",
        lines: b"statement=1\nanswer=0\nat=-\nterm=((Sigma (_0 : Type), Kind) + Sort 2)\n",
    },
];

static CASES_B: [Case<'static>; 21] = [
    Case {
        script: b"check Type -> fun x => x\ncheck Pi (x : Type), x -> x",
        lines: b"statement=1\nanswer=0\nat=-\nterm=(Pi (_0 : Type), (fun _1 => _1))\n\
            statement=2\nanswer=0\nat=-\nterm=(Pi (_0 : Type), (Pi (_1 : _0), _0))\n",
    },
    Case {
        script: b"check fun x => x -> x\ncheck fun x => x * x\ncheck fun x => x + x",
        lines: b"statement=1\nanswer=0\nat=-\nterm=(fun _0 => (Pi (_1 : _0), _0))\n\
            statement=2\nanswer=0\nat=-\nterm=(fun _0 => (Sigma (_1 : _0), _0))\n\
            statement=3\nanswer=0\nat=-\nterm=(fun _0 => (_0 + _0))\n",
    },
    Case {
        script: b"check Type->Kind*Type+Kind",
        lines: b"statement=1\nanswer=0\nat=-\nterm=(Pi (_0 : Type), ((Sigma (_1 : Kind), Type) + Kind))\n",
    },
    // Application is to the left and the strongest; fst and its like take one atom.
    Case {
        script: b"check fun f => f f f\ncheck fun f => f (f f)",
        lines: b"statement=1\nanswer=0\nat=-\nterm=(fun _0 => ((_0 _0) _0))\n\
            statement=2\nanswer=0\nat=-\nterm=(fun _0 => (_0 (_0 _0)))\n",
    },
    Case {
        script: b"check fun f => f f * f -> f\ncheck fun f => f + f f",
        lines: b"statement=1\nanswer=0\nat=-\nterm=(fun _0 => (Pi (_1 : (Sigma (_1 : (_0 _0)), _0)), _0))\n\
            statement=2\nanswer=0\nat=-\nterm=(fun _0 => (_0 + (_0 _0)))\n",
    },
    Case {
        script: b"check fst Type\ncheck snd Type\ncheck inl Type\ncheck inr Type",
        lines: b"statement=1\nanswer=0\nat=-\nterm=(fst Type)\n\
            statement=2\nanswer=0\nat=-\nterm=(snd Type)\n\
            statement=3\nanswer=0\nat=-\nterm=(inl Type)\n\
            statement=4\nanswer=0\nat=-\nterm=(inr Type)\n",
    },
    Case {
        script: b"check fst Type Kind\ncheck fst (Type Kind)\ncheck fst (snd Type) * inl Kind",
        lines: b"statement=1\nanswer=0\nat=-\nterm=((fst Type) Kind)\n\
            statement=2\nanswer=0\nat=-\nterm=(fst (Type Kind))\n\
            statement=3\nanswer=0\nat=-\nterm=(Sigma (_0 : (fst (snd Type))), (inl Kind))\n",
    },
    Case {
        script: b"check fst snd Type\ncheck Type fst Kind",
        lines: b"statement=1\nanswer=3\nat=10\nterm=-\n\
            statement=2\nanswer=3\nat=30\nterm=-\n",
    },
    // Brackets.
    Case {
        script: b"check (Type)\ncheck ((Type) (Kind))",
        lines: b"statement=1\nanswer=0\nat=-\nterm=Type\n\
            statement=2\nanswer=0\nat=-\nterm=(Type Kind)\n",
    },
    Case {
        script: b"check (Type : Kind)\ncheck (Type, Kind)\ncheck {Type, Kind}",
        lines: b"statement=1\nanswer=0\nat=-\nterm=(Type : Kind)\n\
            statement=2\nanswer=0\nat=-\nterm=(Type, Kind)\n\
            statement=3\nanswer=0\nat=-\nterm={Type, Kind}\n",
    },
    Case {
        script: b"check ((Type, Kind), {Type, (Kind : Type)})\n\
            check {fun x => x, Type} (Type, Kind)",
        lines: b"statement=1\nanswer=0\nat=-\nterm=((Type, Kind), {Type, (Kind : Type)})\n\
            statement=2\nanswer=0\nat=-\nterm=({(fun _0 => _0), Type} (Type, Kind))\n",
    },
    // Match: one arm of each kind, in either order.
    Case {
        script: b"check match Type with | inl x => x | inr y => Kind end",
        lines: b"statement=1\nanswer=0\nat=-\nterm=(match Type with | inl _0 => _0 | inr _0 => Kind end)\n",
    },
    Case {
        script: b"check match Type with | inr y => Kind | inl x => x end",
        lines: b"statement=1\nanswer=0\nat=-\nterm=(match Type with | inl _0 => _0 | inr _0 => Kind end)\n",
    },
    Case {
        script: b"check match Type with | inl x => x | inr x => x end Kind",
        lines: b"statement=1\nanswer=0\nat=-\nterm=((match Type with | inl _0 => _0 | inr _0 => _0 end) Kind)\n",
    },
    Case {
        script: b"check fun z => match z with | inl x => x z | inr y => z end",
        lines: b"statement=1\nanswer=0\nat=-\nterm=(fun _0 => (match _0 with | inl _1 => (_1 _0) | inr _1 => _0 end))\n",
    },
    Case {
        script: b"check match Type with | inl x => x | inl y => y end\n\
            check match Type with | inr x => x | inr y => y end",
        lines: b"statement=1\nanswer=3\nat=37\nterm=-\n\
            statement=2\nanswer=3\nat=89\nterm=-\n",
    },
    Case {
        script: b"check match Type with | inl x => x end\ncheck match Type with end",
        lines: b"statement=1\nanswer=3\nat=35\nterm=-\n\
            statement=2\nanswer=3\nat=61\nterm=-\n",
    },
    Case {
        script: b"check match Type with | inl x => x | inr y => y | inl z => z end",
        lines: b"statement=1\nanswer=3\nat=48\nterm=-\n",
    },
    // A name means the nearest binder, else the entry.
    Case {
        script: b"check fun x => fun x => x\ncheck fun x => fun y => fun x => x y",
        lines: b"statement=1\nanswer=0\nat=-\nterm=(fun _0 => (fun _1 => _1))\n\
            statement=2\nanswer=0\nat=-\nterm=(fun _0 => (fun _1 => (fun _2 => (_2 _1))))\n",
    },
    Case {
        script: b"axiom A : Type\ncheck fun A => A\ncheck A",
        lines: b"statement=1\nanswer=0\nat=-\nterm=Type\n\
            statement=2\nanswer=0\nat=-\nterm=(fun _0 => _0)\n\
            statement=3\nanswer=0\nat=-\nterm=A\n",
    },
    Case {
        script: b"check fun _x => _x\ncheck fun _1 => fun _0 => _1",
        lines: b"statement=1\nanswer=0\nat=-\nterm=(fun _0 => _0)\n\
            statement=2\nanswer=0\nat=-\nterm=(fun _0 => (fun _1 => _0))\n",
    },
];

static CASES_C: [Case<'static>; 21] = [
    Case {
        script: b"axiom x : Type\ncheck fun (x : x) => x\ncheck Pi (x : x), x\n\
            check let x := x in x\ncheck let x : x := x in x\ncheck let {x, y} := x in y x",
        lines: b"statement=1\nanswer=0\nat=-\nterm=Type\n\
            statement=2\nanswer=0\nat=-\nterm=(fun (_0 : x) => _0)\n\
            statement=3\nanswer=0\nat=-\nterm=(Pi (_0 : x), _0)\n\
            statement=4\nanswer=0\nat=-\nterm=(let _0 := x in _0)\n\
            statement=5\nanswer=0\nat=-\nterm=(let _0 := (x : x) in _0)\n\
            statement=6\nanswer=0\nat=-\nterm=(let {_0, _1} := x in (_1 _0))\n",
    },
    Case {
        script: b"check fun (x : x) => x\ncheck Sigma (x : x), x\ncheck let x := x in x\n\
            check let x : x := x in x\ncheck let {x, y} := y in x",
        lines: b"statement=1\nanswer=4\nat=15\nterm=-\n\
            statement=2\nanswer=4\nat=40\nterm=-\n\
            statement=3\nanswer=4\nat=61\nterm=-\n\
            statement=4\nanswer=4\nat=82\nterm=-\n\
            statement=5\nanswer=4\nat=114\nterm=-\n",
    },
    Case {
        script: b"check (fun x => x) x\ncheck (Pi (x : Type), x) -> x\n\
            check (let x := Type in x) x\n\
            check match Type with | inl x => x | inr y => x end\n\
            check (let {x, y} := Type in x) y",
        lines: b"statement=1\nanswer=4\nat=19\nterm=-\n\
            statement=2\nanswer=4\nat=49\nterm=-\n\
            statement=3\nanswer=4\nat=78\nterm=-\n\
            statement=4\nanswer=4\nat=126\nterm=-\n\
            statement=5\nanswer=4\nat=164\nterm=-\n",
    },
    // Entries: the defs and axioms that were read before.
    Case {
        script: b"def a := Type\ndef b := a\ncheck a b",
        lines: b"statement=1\nanswer=0\nat=-\nterm=Type\n\
            statement=2\nanswer=0\nat=-\nterm=a\n\
            statement=3\nanswer=0\nat=-\nterm=(a b)\n",
    },
    Case {
        script: b"check A\naxiom A : Type\ncheck A",
        lines: b"statement=1\nanswer=4\nat=6\nterm=-\n\
            statement=2\nanswer=0\nat=-\nterm=Type\n\
            statement=3\nanswer=0\nat=-\nterm=A\n",
    },
    Case {
        script: b"def x := x\ncheck x",
        lines: b"statement=1\nanswer=4\nat=9\nterm=-\n\
            statement=2\nanswer=4\nat=17\nterm=-\n",
    },
    Case {
        script: b"axiom x :\ndef x := Type\ncheck x",
        lines: b"statement=1\nanswer=3\nat=10\nterm=-\n\
            statement=2\nanswer=0\nat=-\nterm=Type\n\
            statement=3\nanswer=0\nat=-\nterm=x\n",
    },
    Case {
        script: b"check Type\neval Kind\ncheck Ty",
        lines: b"statement=1\nanswer=0\nat=-\nterm=Type\n\
            statement=2\nanswer=0\nat=-\nterm=Kind\n\
            statement=3\nanswer=4\nat=27\nterm=-\n",
    },
    // An entered name.
    Case {
        script: b"axiom A : Type\naxiom A : Kind\ndef A := Kind\ntheorem A : A := A\n\
            constant B : A",
        lines: b"statement=1\nanswer=0\nat=-\nterm=Type\n\
            statement=2\nanswer=5\nat=21\nterm=-\n\
            statement=3\nanswer=5\nat=34\nterm=-\n\
            statement=4\nanswer=5\nat=52\nterm=-\n\
            statement=5\nanswer=0\nat=-\nterm=A\n",
    },
    Case {
        script: b"axiom A : Type\ncheck A\ndef A\nlemma A Type\nconstant A :",
        lines: b"statement=1\nanswer=0\nat=-\nterm=Type\n\
            statement=2\nanswer=0\nat=-\nterm=A\n\
            statement=3\nanswer=5\nat=27\nterm=-\n\
            statement=4\nanswer=5\nat=35\nterm=-\n\
            statement=5\nanswer=5\nat=51\nterm=-\n",
    },
    // The furthest left of 3, 4 and 5 is told.
    Case {
        script: b"axiom A : Type\ndef A := x\ndef B := x )\ndef C := A ) x",
        lines: b"statement=1\nanswer=0\nat=-\nterm=Type\n\
            statement=2\nanswer=5\nat=19\nterm=-\n\
            statement=3\nanswer=4\nat=35\nterm=-\n\
            statement=4\nanswer=3\nat=50\nterm=-\n",
    },
    Case {
        script: b"check x )\ncheck ) x\ncheck x y\ncheck (x",
        lines: b"statement=1\nanswer=4\nat=6\nterm=-\n\
            statement=2\nanswer=3\nat=16\nterm=-\n\
            statement=3\nanswer=4\nat=26\nterm=-\n\
            statement=4\nanswer=4\nat=37\nterm=-\n",
    },
    Case {
        script: b"def _x := y\ndef y y := y\ndef z := y :",
        lines: b"statement=1\nanswer=3\nat=4\nterm=-\n\
            statement=2\nanswer=3\nat=18\nterm=-\n\
            statement=3\nanswer=4\nat=34\nterm=-\n",
    },
    // 1 comes before all of them.
    Case {
        script: b"check ) @\ncheck x @\naxiom A : Type\ndef A := @\n",
        lines: b"statement=1\nanswer=1\nat=8\nterm=-\n\
            statement=2\nanswer=1\nat=18\nterm=-\n\
            statement=3\nanswer=0\nat=-\nterm=Type\n\
            statement=4\nanswer=1\nat=44\nterm=-\n",
    },
    Case {
        script: b"A @\ncheck Type",
        lines: b"statement=1\nanswer=1\nat=2\nterm=-\n\
            statement=2\nanswer=0\nat=-\nterm=Type\n",
    },
    Case {
        script: b"def _ := Type\ncheck Sort 70000\ncheck Sort 007",
        lines: b"statement=1\nanswer=1\nat=4\nterm=-\n\
            statement=2\nanswer=1\nat=25\nterm=-\n\
            statement=3\nanswer=1\nat=42\nterm=-\n",
    },
    // A statement that begins with no first word.
    Case {
        script: b"x := Type\ncheck Type",
        lines: b"statement=1\nanswer=3\nat=0\nterm=-\n\
            statement=2\nanswer=0\nat=-\nterm=Type\n",
    },
    Case {
        script: b"  -> check Kind",
        lines: b"statement=1\nanswer=3\nat=2\nterm=-\n\
            statement=2\nanswer=0\nat=-\nterm=Kind\n",
    },
    Case {
        script: b"Type",
        lines: b"statement=1\nanswer=3\nat=0\nterm=-\n",
    },
    Case {
        script: b"check (\ndef x := Type )",
        lines: b"statement=1\nanswer=3\nat=8\nterm=-\n\
            statement=2\nanswer=3\nat=22\nterm=-\n",
    },
    // def x := T and def x : T := E, each token in turn.
    Case {
        script: b"def := Type\ndef 5 := Type\ndef Type := Type\ndef (x) := Type\n\
            def fun := Type\ndef\n",
        lines: b"statement=1\nanswer=3\nat=4\nterm=-\n\
            statement=2\nanswer=3\nat=16\nterm=-\n\
            statement=3\nanswer=3\nat=30\nterm=-\n\
            statement=4\nanswer=3\nat=47\nterm=-\n\
            statement=5\nanswer=3\nat=63\nterm=-\n\
            statement=6\nanswer=3\nat=79\nterm=-\n",
    },
];

static CASES_D: [Case<'static>; 20] = [
    Case {
        script: b"def x Type\ndef x => Type\ndef x , Type\ndef x\n\n-- the end\n",
        lines: b"statement=1\nanswer=3\nat=6\nterm=-\n\
            statement=2\nanswer=3\nat=17\nterm=-\n\
            statement=3\nanswer=3\nat=31\nterm=-\n\
            statement=4\nanswer=3\nat=56\nterm=-\n",
    },
    Case {
        script: b"def x := := Type\ndef x := )\ndef x := 5\ndef x :=",
        lines: b"statement=1\nanswer=3\nat=9\nterm=-\n\
            statement=2\nanswer=3\nat=26\nterm=-\n\
            statement=3\nanswer=3\nat=37\nterm=-\n\
            statement=4\nanswer=3\nat=47\nterm=-\n",
    },
    Case {
        script: b"def x := Type )\ndef x := Type := Kind\ndef x := Type : Kind\ndef x := Type 5",
        lines: b"statement=1\nanswer=3\nat=14\nterm=-\n\
            statement=2\nanswer=3\nat=30\nterm=-\n\
            statement=3\nanswer=3\nat=52\nterm=-\n\
            statement=4\nanswer=3\nat=73\nterm=-\n",
    },
    Case {
        script: b"def x : := Type\ndef x : Type , Kind\ndef x : Type\ndef x : Type := )\n\
            def x : Type :=\ndef x : Type := Kind in",
        lines: b"statement=1\nanswer=3\nat=8\nterm=-\n\
            statement=2\nanswer=3\nat=29\nterm=-\n\
            statement=3\nanswer=3\nat=49\nterm=-\n\
            statement=4\nanswer=3\nat=65\nterm=-\n\
            statement=5\nanswer=3\nat=83\nterm=-\n\
            statement=6\nanswer=3\nat=104\nterm=-\n",
    },
    // axiom x : T, each token in turn.
    Case {
        script: b"axiom : Type\naxiom _A : Type\naxiom x Type\naxiom x := Type\naxiom x : )\n\
            axiom x : Type := Kind",
        lines: b"statement=1\nanswer=3\nat=6\nterm=-\n\
            statement=2\nanswer=3\nat=19\nterm=-\n\
            statement=3\nanswer=3\nat=37\nterm=-\n\
            statement=4\nanswer=3\nat=50\nterm=-\n\
            statement=5\nanswer=3\nat=68\nterm=-\n\
            statement=6\nanswer=3\nat=85\nterm=-\n",
    },
    Case {
        script: b"axiom\naxiom x\naxiom x :\nconstant x :  ",
        lines: b"statement=1\nanswer=3\nat=6\nterm=-\n\
            statement=2\nanswer=3\nat=14\nterm=-\n\
            statement=3\nanswer=3\nat=24\nterm=-\n\
            statement=4\nanswer=3\nat=38\nterm=-\n",
    },
    // check fun (x : T) => x, each token in turn.
    Case {
        script: b"check => x\ncheck fun => x\ncheck fun 5 => x\ncheck fun Type => Type\n\
            check fun (: Type) => x",
        lines: b"statement=1\nanswer=3\nat=6\nterm=-\n\
            statement=2\nanswer=3\nat=21\nterm=-\n\
            statement=3\nanswer=3\nat=36\nterm=-\n\
            statement=4\nanswer=3\nat=53\nterm=-\n\
            statement=5\nanswer=3\nat=77\nterm=-\n",
    },
    Case {
        script: b"check fun (x Type) => x\ncheck fun (x :) => x\ncheck fun (x : Type => x\n\
            check fun (x : Type) x\ncheck fun (x : Type) => )\ncheck fun (x : Type) => x )",
        lines: b"statement=1\nanswer=3\nat=13\nterm=-\n\
            statement=2\nanswer=3\nat=38\nterm=-\n\
            statement=3\nanswer=3\nat=65\nterm=-\n\
            statement=4\nanswer=3\nat=91\nterm=-\n\
            statement=5\nanswer=3\nat=117\nterm=-\n\
            statement=6\nanswer=3\nat=145\nterm=-\n",
    },
    Case {
        script: b"check\ncheck fun\ncheck fun (\ncheck fun (x\ncheck fun (x :\n\
            check fun (x : Type\ncheck fun (x : Type)\ncheck fun (x : Type) =>",
        lines: b"statement=1\nanswer=3\nat=6\nterm=-\n\
            statement=2\nanswer=3\nat=16\nterm=-\n\
            statement=3\nanswer=3\nat=28\nterm=-\n\
            statement=4\nanswer=3\nat=41\nterm=-\n\
            statement=5\nanswer=3\nat=56\nterm=-\n\
            statement=6\nanswer=3\nat=76\nterm=-\n\
            statement=7\nanswer=3\nat=97\nterm=-\n\
            statement=8\nanswer=3\nat=120\nterm=-\n",
    },
    Case {
        script: b"check fun x\n-- a comment\neval fun x =>  \n-- the end\n",
        lines: b"statement=1\nanswer=3\nat=25\nterm=-\n\
            statement=2\nanswer=3\nat=52\nterm=-\n",
    },
    // Tokens that fit nowhere in a quantifier, a let, a bracket or a match.
    Case {
        script: b"check Pi x, x\ncheck Pi (x : Type) x\ncheck Pi (x : Type) => x\n\
            check fun (x : Type), x",
        lines: b"statement=1\nanswer=3\nat=9\nterm=-\n\
            statement=2\nanswer=3\nat=34\nterm=-\n\
            statement=3\nanswer=3\nat=56\nterm=-\n\
            statement=4\nanswer=3\nat=81\nterm=-\n",
    },
    Case {
        script: b"check let x Type\ncheck let 5 := Type in Type\ncheck let (x, y) := Type in x\n\
            check let x := Type )",
        lines: b"statement=1\nanswer=3\nat=12\nterm=-\n\
            statement=2\nanswer=3\nat=27\nterm=-\n\
            statement=3\nanswer=3\nat=55\nterm=-\n\
            statement=4\nanswer=3\nat=95\nterm=-\n",
    },
    Case {
        script: b"check let {x y} := Type in x\ncheck let {x, y := Type in x\n\
            check let {x, y} : Type := Type in x\ncheck let {Type, y} := Type in y",
        lines: b"statement=1\nanswer=3\nat=13\nterm=-\n\
            statement=2\nanswer=3\nat=45\nterm=-\n\
            statement=3\nanswer=3\nat=75\nterm=-\n\
            statement=4\nanswer=3\nat=106\nterm=-\n",
    },
    Case {
        script: b"check ()\ncheck (Type, )\ncheck (Type, Kind, Type)\n\
            check (Type : Kind : Type)\ncheck (Type, Kind}",
        lines: b"statement=1\nanswer=3\nat=7\nterm=-\n\
            statement=2\nanswer=3\nat=22\nterm=-\n\
            statement=3\nanswer=3\nat=41\nterm=-\n\
            statement=4\nanswer=3\nat=68\nterm=-\n\
            statement=5\nanswer=3\nat=93\nterm=-\n",
    },
    Case {
        script: b"check {Type}\ncheck {Type : Kind}\ncheck {Type, Kind)\ncheck {Type, Kind\n\
            check (Type\n",
        lines: b"statement=1\nanswer=3\nat=11\nterm=-\n\
            statement=2\nanswer=3\nat=25\nterm=-\n\
            statement=3\nanswer=3\nat=50\nterm=-\n\
            statement=4\nanswer=3\nat=70\nterm=-\n\
            statement=5\nanswer=3\nat=82\nterm=-\n",
    },
    Case {
        script: b"check match with\ncheck match Type | inl x => x\n\
            check match Type with inl x => x\ncheck match Type with | x => x",
        lines: b"statement=1\nanswer=3\nat=12\nterm=-\n\
            statement=2\nanswer=3\nat=34\nterm=-\n\
            statement=3\nanswer=3\nat=69\nterm=-\n\
            statement=4\nanswer=3\nat=104\nterm=-\n",
    },
    Case {
        script: b"check match Type with | inl => x\ncheck match Type with | inl x x\n\
            check match Type with | inl x => | inr\n\
            check match Type with | inl x => x inr y => y end\n\
            check match Type with | inl x => x | inr y => y\n",
        lines: b"statement=1\nanswer=3\nat=28\nterm=-\n\
            statement=2\nanswer=3\nat=63\nterm=-\n\
            statement=3\nanswer=3\nat=98\nterm=-\n\
            statement=4\nanswer=3\nat=139\nterm=-\n\
            statement=5\nanswer=3\nat=202\nterm=-\n",
    },
    // Tokens that fit nowhere beside what joins, a sort or a head.
    Case {
        script: b"check Sort x\ncheck Sort Type\ncheck Sort\ncheck fst fun x => x\ncheck fst\n",
        lines: b"statement=1\nanswer=3\nat=11\nterm=-\n\
            statement=2\nanswer=3\nat=24\nterm=-\n\
            statement=3\nanswer=3\nat=40\nterm=-\n\
            statement=4\nanswer=3\nat=50\nterm=-\n\
            statement=5\nanswer=3\nat=71\nterm=-\n",
    },
    Case {
        script: b"check Type + fun x => x\ncheck Type * let x := Type in x\n\
            check Type fun x => x\ncheck Type -> + Kind\ncheck Type +\n",
        lines: b"statement=1\nanswer=3\nat=13\nterm=-\n\
            statement=2\nanswer=3\nat=37\nterm=-\n\
            statement=3\nanswer=3\nat=67\nterm=-\n\
            statement=4\nanswer=3\nat=92\nterm=-\n\
            statement=5\nanswer=3\nat=112\nterm=-\n",
    },
    Case {
        script: b"check 5\ncheck in\ncheck with\ncheck end\ncheck |\ncheck Type in",
        lines: b"statement=1\nanswer=3\nat=6\nterm=-\n\
            statement=2\nanswer=3\nat=14\nterm=-\n\
            statement=3\nanswer=3\nat=23\nterm=-\n\
            statement=4\nanswer=3\nat=34\nterm=-\n\
            statement=5\nanswer=3\nat=44\nterm=-\n\
            statement=6\nanswer=3\nat=57\nterm=-\n",
    },
];

#[test]
fn reprints(rt: HostRuntime) -> Result<(), Fail> {
    let heap = rt.alloc();
    assert_eq!(rt; first_wrong(heap, reprint_text, &CASES_A)?, None);
    assert_eq!(rt; first_wrong(heap, reprint_text, &CASES_B)?, None);
    assert_eq!(rt; first_wrong(heap, reprint_text, &CASES_C)?, None);
    assert_eq!(rt; first_wrong(heap, reprint_text, &CASES_D)?, None);
    Ok(())
}

// A script, and one with the texts of its checks in their places. Both are reprinted by these
// lines.
struct Again {
    script: &'static [u8],
    again: &'static [u8],
    lines: &'static [u8],
}

static AGAIN: [Again; 3] = [
    Again {
        script: b"axiom A : Type\naxiom f : A -> A\ncheck fun x => f (f x)\n\
            check A * A + A -> A\ncheck let {x, y} := f in (y, {x, f})",
        again: b"axiom A : Type\naxiom f : A -> A\ncheck (fun _0 => (f (f _0)))\n\
            check (Pi (_0 : ((Sigma (_0 : A), A) + A)), A)\n\
            check (let {_0, _1} := f in (_1, {_0, f}))",
        lines: b"statement=1\nanswer=0\nat=-\nterm=Type\n\
            statement=2\nanswer=0\nat=-\nterm=(Pi (_0 : A), A)\n\
            statement=3\nanswer=0\nat=-\nterm=(fun _0 => (f (f _0)))\n\
            statement=4\nanswer=0\nat=-\nterm=(Pi (_0 : ((Sigma (_0 : A), A) + A)), A)\n\
            statement=5\nanswer=0\nat=-\nterm=(let {_0, _1} := f in (_1, {_0, f}))\n",
    },
    Again {
        script: b"axiom B : Sort 3\n\
            check match inl B with | inr y => fst y | inl x => snd x end\n\
            check let x : Prop := B in exists (y : x), x\n\
            check fun (z : B) => inr (z : Kind)",
        again: b"axiom B : Sort 3\n\
            check (match (inl B) with | inl _0 => (snd _0) | inr _0 => (fst _0) end)\n\
            check (let _0 := (B : Type) in (exists (_1 : _0), _0))\n\
            check (fun (_0 : B) => (inr (_0 : Kind)))",
        lines: b"statement=1\nanswer=0\nat=-\nterm=Sort 3\n\
            statement=2\nanswer=0\nat=-\nterm=(match (inl B) with | inl _0 => (snd _0) | inr _0 => (fst _0) end)\n\
            statement=3\nanswer=0\nat=-\nterm=(let _0 := (B : Type) in (exists (_1 : _0), _0))\n\
            statement=4\nanswer=0\nat=-\nterm=(fun (_0 : B) => (inr (_0 : Kind)))\n",
    },
    Again {
        script: b"axiom x : Type\ncheck fun x => x\ncheck (fun x => x) x\ncheck x -> x -> x\n\
            check Pi (x : x), x -> x",
        again: b"axiom x : Type\ncheck (fun _0 => _0)\ncheck ((fun _0 => _0) x)\n\
            check (Pi (_0 : x), (Pi (_1 : x), x))\ncheck (Pi (_0 : x), (Pi (_1 : _0), _0))",
        lines: b"statement=1\nanswer=0\nat=-\nterm=Type\n\
            statement=2\nanswer=0\nat=-\nterm=(fun _0 => _0)\n\
            statement=3\nanswer=0\nat=-\nterm=((fun _0 => _0) x)\n\
            statement=4\nanswer=0\nat=-\nterm=(Pi (_0 : x), (Pi (_1 : x), x))\n\
            statement=5\nanswer=0\nat=-\nterm=(Pi (_0 : x), (Pi (_1 : _0), _0))\n",
    },
];

#[test]
fn texts_again(rt: HostRuntime) -> Result<(), Fail> {
    for Again {
        script,
        again,
        lines,
    } in &AGAIN {
        let cases = [
            Case { script, lines },
            Case {
                script: again,
                lines,
            },
        ];
        assert_eq!(rt; first_wrong(rt.alloc(), reprint_text, &cases)?, None);
    }
    Ok(())
}

// The statement `check`, some text so many times, a middle, and other text so many times.
struct Nested {
    opening: &'static str,
    middle: &'static str,
    closing: &'static str,
    times: usize,
}

impl Nested {
    fn script(&self, heap: Global) -> Result<String, AllocError> {
        let opened = self.opening.repeat(heap, self.times)?;
        let closed = self.closing.repeat(heap, self.times)?;
        format!(in heap; "check{opened}{}{closed}", self.middle)
    }
}

// The lines of one accepted statement: binders from `_0` on, each between `opening` and `after`,
// then `inner`.
fn nested_lines(
    heap: Global,
    opening: &str,
    after: &str,
    inner: &str,
    times: usize,
) -> Result<String, AllocError> {
    let mut all = String::from_str(heap, "statement=1\nanswer=0\nat=-\nterm=")?;
    for i in 0..times {
        write!(all, "{opening}{i}{after}")?;
    }
    let closed = ")".repeat(heap, times)?;
    writeln!(all, "{inner}{closed}")?;
    Ok(all)
}

static DEEP: [(Nested, &'static [u8]); 6] = [
    (
        Nested {
            opening: "(",
            middle: "",
            closing: "",
            times: 3999,
        },
        b"statement=1\nanswer=3\nat=4004\nterm=-\n",
    ),
    (
        Nested {
            opening: "(",
            middle: "",
            closing: "",
            times: 4000,
        },
        b"statement=1\nanswer=2\nat=0\nterm=-\n",
    ),
    (
        Nested {
            opening: "(",
            middle: "Type",
            closing: ")",
            times: 1999,
        },
        b"statement=1\nanswer=0\nat=-\nterm=Type\n",
    ),
    (
        Nested {
            opening: " fun x =>",
            middle: "",
            closing: "",
            times: 1333,
        },
        b"statement=1\nanswer=3\nat=12002\nterm=-\n",
    ),
    (
        Nested {
            opening: " ->",
            middle: "",
            closing: "",
            times: 3999,
        },
        b"statement=1\nanswer=3\nat=6\nterm=-\n",
    ),
    (
        Nested {
            opening: " Type ->",
            middle: "",
            closing: "",
            times: 1999,
        },
        b"statement=1\nanswer=3\nat=15997\nterm=-\n",
    ),
];

// 4,000 tokens, or nearly so many, of `(`, of `fun x =>` and of `->`: what is missing is placed at
// the end, and what closes is accepted.
#[test]
fn deep(rt: HostRuntime) -> Result<(), Fail> {
    let heap = rt.alloc();
    for (nested, lines) in &DEEP {
        let script = nested.script(heap)?;
        let cases = [Case {
            script: script.as_bytes(),
            lines,
        }];
        assert_eq!(rt; first_wrong(heap, reprint_text, &cases)?, None);
    }
    Ok(())
}

// Nearly 4,000 tokens that are accepted, with a binder for each turn.
#[test]
fn deep_binders(rt: HostRuntime) -> Result<(), Fail> {
    let heap = rt.alloc();
    let functions = Nested {
        opening: " fun x =>",
        middle: " x",
        closing: "",
        times: 1332,
    }
    .script(heap)?;
    let function_lines = nested_lines(heap, "(fun _", " => ", "_1331", 1332)?;
    let arrows = Nested {
        opening: " Type ->",
        middle: " Type",
        closing: "",
        times: 1999,
    }
    .script(heap)?;
    let arrow_lines = nested_lines(heap, "(Pi (_", " : Type), ", "Type", 1999)?;
    let cases = [
        Case {
            script: functions.as_bytes(),
            lines: function_lines.as_bytes(),
        },
        Case {
            script: arrows.as_bytes(),
            lines: arrow_lines.as_bytes(),
        },
    ];
    assert_eq!(rt; first_wrong(heap, reprint_text, &cases)?, None);
    Ok(())
}

// 1,000,000 bytes are reprinted, one more is not.
#[test]
fn long_scripts(rt: HostRuntime) -> Result<(), Fail> {
    let heap = rt.alloc();
    let most = blanks(heap, 1_000_000)?;
    let more = blanks(heap, 1_000_001)?;
    let cases = [
        Case {
            script: most.as_slice(),
            lines: b"",
        },
        Case {
            script: more.as_slice(),
            lines: b"answer=13\n",
        },
    ];
    assert_eq!(rt; first_wrong(heap, reprint_text, &cases)?, None);
    Ok(())
}
