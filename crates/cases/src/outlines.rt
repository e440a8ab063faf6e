//! Scripts and their outlines.
use crate::case::{Case, blanks, first_wrong};
use report::outline::outline_text;
use std::test::Fail;

static CASES: [Case<'static>; 62] = [
    // Nothing, blanks and comments.
    Case {
        script: b"",
        lines: b"",
    },
    Case {
        script: b" \t\r\n",
        lines: b"",
    },
    Case {
        script: b"-- a comment",
        lines: b"",
    },
    Case {
        script: b"\n-- a\n \t\r\n--\n",
        lines: b"",
    },
    Case {
        script: b"check A \n-- end\n\t\n",
        lines: b"statement=1\nat=0\nkind=check\nname=-\ntokens=2\nanswer=0\nplace=-\n",
    },
    Case {
        script: b"check A\n-- c\n\neval B",
        lines: b"statement=1\nat=0\nkind=check\nname=-\ntokens=2\nanswer=0\nplace=-\n\
            statement=2\nat=14\nkind=eval\nname=-\ntokens=2\nanswer=0\nplace=-\n",
    },
    Case {
        script: b"def\n-- x\ny := A",
        lines: b"statement=1\nat=0\nkind=def\nname=y\ntokens=4\nanswer=0\nplace=-\n",
    },
    // Two dashes begin a comment at a line's start only, and only LF begins a line.
    Case {
        script: b"-- def x\ncheck A",
        lines: b"statement=1\nat=9\nkind=check\nname=-\ntokens=2\nanswer=0\nplace=-\n",
    },
    Case {
        script: b"--> x\ncheck A",
        lines: b"statement=1\nat=6\nkind=check\nname=-\ntokens=2\nanswer=0\nplace=-\n",
    },
    Case {
        script: b" -- a",
        lines: b"statement=1\nat=1\nkind=-\nname=-\ntokens=3\nanswer=1\nplace=1\n",
    },
    Case {
        script: b"check A -- c",
        lines: b"statement=1\nat=0\nkind=check\nname=-\ntokens=5\nanswer=1\nplace=8\n",
    },
    Case {
        script: b"check A --> B",
        lines: b"statement=1\nat=0\nkind=check\nname=-\ntokens=5\nanswer=1\nplace=8\n",
    },
    Case {
        script: b"check A\n-> B",
        lines: b"statement=1\nat=0\nkind=check\nname=-\ntokens=4\nanswer=0\nplace=-\n",
    },
    Case {
        script: b"check A\r\n-- c\r\neval B\r\n",
        lines: b"statement=1\nat=0\nkind=check\nname=-\ntokens=2\nanswer=0\nplace=-\n\
            statement=2\nat=15\nkind=eval\nname=-\ntokens=2\nanswer=0\nplace=-\n",
    },
    Case {
        script: b"check A\r-- c",
        lines: b"statement=1\nat=0\nkind=check\nname=-\ntokens=5\nanswer=1\nplace=8\n",
    },
    Case {
        script: b"check\rA",
        lines: b"statement=1\nat=0\nkind=check\nname=-\ntokens=2\nanswer=0\nplace=-\n",
    },
    // Numbers take digits only, and are judged when they are taken.
    Case {
        script: b"5def",
        lines: b"statement=1\nat=0\nkind=-\nname=-\ntokens=1\nanswer=0\nplace=-\n\
            statement=2\nat=1\nkind=def\nname=-\ntokens=1\nanswer=0\nplace=-\n",
    },
    Case {
        script: b"check 5def x",
        lines: b"statement=1\nat=0\nkind=check\nname=-\ntokens=2\nanswer=0\nplace=-\n\
            statement=2\nat=7\nkind=def\nname=x\ntokens=2\nanswer=0\nplace=-\n",
    },
    Case {
        script: b"007def x",
        lines: b"statement=1\nat=0\nkind=-\nname=-\ntokens=1\nanswer=1\nplace=0\n\
            statement=2\nat=3\nkind=def\nname=x\ntokens=2\nanswer=0\nplace=-\n",
    },
    Case {
        script: b"check 007",
        lines: b"statement=1\nat=0\nkind=check\nname=-\ntokens=2\nanswer=1\nplace=6\n",
    },
    Case {
        script: b"check 70000",
        lines: b"statement=1\nat=0\nkind=check\nname=-\ntokens=2\nanswer=1\nplace=6\n",
    },
    Case {
        script: b"check 65535",
        lines: b"statement=1\nat=0\nkind=check\nname=-\ntokens=2\nanswer=0\nplace=-\n",
    },
    Case {
        script: b"check 65536",
        lines: b"statement=1\nat=0\nkind=check\nname=-\ntokens=2\nanswer=1\nplace=6\n",
    },
    Case {
        script: b"check 0",
        lines: b"statement=1\nat=0\nkind=check\nname=-\ntokens=2\nanswer=0\nplace=-\n",
    },
    Case {
        script: b"check 00",
        lines: b"statement=1\nat=0\nkind=check\nname=-\ntokens=2\nanswer=1\nplace=6\n",
    },
    // Names.
    Case {
        script: b"check _",
        lines: b"statement=1\nat=0\nkind=check\nname=-\ntokens=2\nanswer=1\nplace=6\n",
    },
    Case {
        script: b"check _0 __ _' x'",
        lines: b"statement=1\nat=0\nkind=check\nname=-\ntokens=5\nanswer=0\nplace=-\n",
    },
    Case {
        script: b"def' Types Sort0",
        lines: b"statement=1\nat=0\nkind=-\nname=-\ntokens=3\nanswer=0\nplace=-\n",
    },
    Case {
        script: b"check checks defx evaluate",
        lines: b"statement=1\nat=0\nkind=check\nname=-\ntokens=4\nanswer=0\nplace=-\n",
    },
    Case {
        script: b"def a1_b' : Type := Type",
        lines: b"statement=1\nat=0\nkind=def\nname=a1_b'\ntokens=6\nanswer=0\nplace=-\n",
    },
    // Symbols, with and without blanks between them.
    Case {
        script: b"check /\\/",
        lines: b"statement=1\nat=0\nkind=check\nname=-\ntokens=3\nanswer=1\nplace=8\n",
    },
    Case {
        script: b"check \\/\\",
        lines: b"statement=1\nat=0\nkind=check\nname=-\ntokens=3\nanswer=1\nplace=8\n",
    },
    Case {
        script: b"check A \\/ B",
        lines: b"statement=1\nat=0\nkind=check\nname=-\ntokens=4\nanswer=0\nplace=-\n",
    },
    Case {
        script: b"check A /\\ B * C + D",
        lines: b"statement=1\nat=0\nkind=check\nname=-\ntokens=8\nanswer=0\nplace=-\n",
    },
    Case {
        script: b"def x :=> y",
        lines: b"statement=1\nat=0\nkind=def\nname=x\ntokens=5\nanswer=1\nplace=8\n",
    },
    Case {
        script: b"check fun x => x",
        lines: b"statement=1\nat=0\nkind=check\nname=-\ntokens=5\nanswer=0\nplace=-\n",
    },
    Case {
        script: b"check(x:A)->B",
        lines: b"statement=1\nat=0\nkind=check\nname=-\ntokens=8\nanswer=0\nplace=-\n",
    },
    Case {
        script: b"check{x,y}|z",
        lines: b"statement=1\nat=0\nkind=check\nname=-\ntokens=8\nanswer=0\nplace=-\n",
    },
    Case {
        script: b"def id:A->A:=fun x=>x",
        lines: b"statement=1\nat=0\nkind=def\nname=id\ntokens=11\nanswer=0\nplace=-\n",
    },
    // Bytes that are no token.
    Case {
        script: b"check -\ncheck =\ncheck >\ncheck /\ncheck \\\ncheck '\ncheck @",
        lines: b"statement=1\nat=0\nkind=check\nname=-\ntokens=2\nanswer=1\nplace=6\n\
            statement=2\nat=8\nkind=check\nname=-\ntokens=2\nanswer=1\nplace=14\n\
            statement=3\nat=16\nkind=check\nname=-\ntokens=2\nanswer=1\nplace=22\n\
            statement=4\nat=24\nkind=check\nname=-\ntokens=2\nanswer=1\nplace=30\n\
            statement=5\nat=32\nkind=check\nname=-\ntokens=2\nanswer=1\nplace=38\n\
            statement=6\nat=40\nkind=check\nname=-\ntokens=2\nanswer=1\nplace=46\n\
            statement=7\nat=48\nkind=check\nname=-\ntokens=2\nanswer=1\nplace=54\n",
    },
    Case {
        script: b"check\x80",
        lines: b"statement=1\nat=0\nkind=check\nname=-\ntokens=2\nanswer=1\nplace=5\n",
    },
    Case {
        script: b"check \xe2\x88\x80x",
        lines: b"statement=1\nat=0\nkind=check\nname=-\ntokens=5\nanswer=1\nplace=6\n",
    },
    Case {
        script: b"\xff",
        lines: b"statement=1\nat=0\nkind=-\nname=-\ntokens=1\nanswer=1\nplace=0\n",
    },
    Case {
        script: b"check a\0b",
        lines: b"statement=1\nat=0\nkind=check\nname=-\ntokens=4\nanswer=1\nplace=7\n",
    },
    Case {
        script: b"check A \x0b B \x0c",
        lines: b"statement=1\nat=0\nkind=check\nname=-\ntokens=5\nanswer=1\nplace=8\n",
    },
    Case {
        script: b"'def",
        lines: b"statement=1\nat=0\nkind=-\nname=-\ntokens=1\nanswer=1\nplace=0\n\
            statement=2\nat=1\nkind=def\nname=-\ntokens=1\nanswer=0\nplace=-\n",
    },
    Case {
        script: b"@def",
        lines: b"statement=1\nat=0\nkind=-\nname=-\ntokens=1\nanswer=1\nplace=0\n\
            statement=2\nat=1\nkind=def\nname=-\ntokens=1\nanswer=0\nplace=-\n",
    },
    Case {
        script: b"check ? !\neval B",
        lines: b"statement=1\nat=0\nkind=check\nname=-\ntokens=3\nanswer=1\nplace=6\n\
            statement=2\nat=10\nkind=eval\nname=-\ntokens=2\nanswer=0\nplace=-\n",
    },
    // Where statements begin and end, and their kinds.
    Case {
        script: b"x",
        lines: b"statement=1\nat=0\nkind=-\nname=-\ntokens=1\nanswer=0\nplace=-\n",
    },
    Case {
        script: b"A := B\ndef x := A",
        lines: b"statement=1\nat=0\nkind=-\nname=-\ntokens=3\nanswer=0\nplace=-\n\
            statement=2\nat=7\nkind=def\nname=x\ntokens=4\nanswer=0\nplace=-\n",
    },
    Case {
        script: b"check (def x)",
        lines: b"statement=1\nat=0\nkind=check\nname=-\ntokens=2\nanswer=0\nplace=-\n\
            statement=2\nat=7\nkind=def\nname=x\ntokens=3\nanswer=0\nplace=-\n",
    },
    Case {
        script: b"def def eval",
        lines: b"statement=1\nat=0\nkind=def\nname=-\ntokens=1\nanswer=0\nplace=-\n\
            statement=2\nat=4\nkind=def\nname=-\ntokens=1\nanswer=0\nplace=-\n\
            statement=3\nat=8\nkind=eval\nname=-\ntokens=1\nanswer=0\nplace=-\n",
    },
    Case {
        script: b"def a\ntheorem b\nlemma c\naxiom d\nconstant e\ncheck f\neval g\n",
        lines: b"statement=1\nat=0\nkind=def\nname=a\ntokens=2\nanswer=0\nplace=-\n\
            statement=2\nat=6\nkind=def\nname=b\ntokens=2\nanswer=0\nplace=-\n\
            statement=3\nat=16\nkind=def\nname=c\ntokens=2\nanswer=0\nplace=-\n\
            statement=4\nat=24\nkind=axiom\nname=d\ntokens=2\nanswer=0\nplace=-\n\
            statement=5\nat=32\nkind=axiom\nname=e\ntokens=2\nanswer=0\nplace=-\n\
            statement=6\nat=43\nkind=check\nname=-\ntokens=2\nanswer=0\nplace=-\n\
            statement=7\nat=51\nkind=eval\nname=-\ntokens=2\nanswer=0\nplace=-\n",
    },
    // The name that would be entered.
    Case {
        script: b"def",
        lines: b"statement=1\nat=0\nkind=def\nname=-\ntokens=1\nanswer=0\nplace=-\n",
    },
    Case {
        script: b"def 5 := A",
        lines: b"statement=1\nat=0\nkind=def\nname=-\ntokens=4\nanswer=0\nplace=-\n",
    },
    Case {
        script: b"def Type := A",
        lines: b"statement=1\nat=0\nkind=def\nname=-\ntokens=4\nanswer=0\nplace=-\n",
    },
    Case {
        script: b"def _x := A",
        lines: b"statement=1\nat=0\nkind=def\nname=-\ntokens=4\nanswer=0\nplace=-\n",
    },
    Case {
        script: b"def @ x",
        lines: b"statement=1\nat=0\nkind=def\nname=-\ntokens=3\nanswer=1\nplace=4\n",
    },
    Case {
        script: b"axiom : A",
        lines: b"statement=1\nat=0\nkind=axiom\nname=-\ntokens=3\nanswer=0\nplace=-\n",
    },
    // The reserved words of terms: none of them is a name.
    Case {
        script: b"def fun def Pi def forall def Sigma def exists def let",
        lines: b"statement=1\nat=0\nkind=def\nname=-\ntokens=2\nanswer=0\nplace=-\n\
            statement=2\nat=8\nkind=def\nname=-\ntokens=2\nanswer=0\nplace=-\n\
            statement=3\nat=15\nkind=def\nname=-\ntokens=2\nanswer=0\nplace=-\n\
            statement=4\nat=26\nkind=def\nname=-\ntokens=2\nanswer=0\nplace=-\n\
            statement=5\nat=36\nkind=def\nname=-\ntokens=2\nanswer=0\nplace=-\n\
            statement=6\nat=47\nkind=def\nname=-\ntokens=2\nanswer=0\nplace=-\n",
    },
    Case {
        script: b"def in def fst def snd def inl def inr def Type",
        lines: b"statement=1\nat=0\nkind=def\nname=-\ntokens=2\nanswer=0\nplace=-\n\
            statement=2\nat=7\nkind=def\nname=-\ntokens=2\nanswer=0\nplace=-\n\
            statement=3\nat=15\nkind=def\nname=-\ntokens=2\nanswer=0\nplace=-\n\
            statement=4\nat=23\nkind=def\nname=-\ntokens=2\nanswer=0\nplace=-\n\
            statement=5\nat=31\nkind=def\nname=-\ntokens=2\nanswer=0\nplace=-\n\
            statement=6\nat=39\nkind=def\nname=-\ntokens=2\nanswer=0\nplace=-\n",
    },
    Case {
        script: b"def Prop def Kind def Sort def match def with def end",
        lines: b"statement=1\nat=0\nkind=def\nname=-\ntokens=2\nanswer=0\nplace=-\n\
            statement=2\nat=9\nkind=def\nname=-\ntokens=2\nanswer=0\nplace=-\n\
            statement=3\nat=18\nkind=def\nname=-\ntokens=2\nanswer=0\nplace=-\n\
            statement=4\nat=27\nkind=def\nname=-\ntokens=2\nanswer=0\nplace=-\n\
            statement=5\nat=37\nkind=def\nname=-\ntokens=2\nanswer=0\nplace=-\n\
            statement=6\nat=46\nkind=def\nname=-\ntokens=2\nanswer=0\nplace=-\n",
    },
];

#[test]
fn outlines(rt: HostRuntime) -> Result<(), Fail> {
    assert_eq!(rt; first_wrong(rt.alloc(), outline_text, &CASES)?, None);
    Ok(())
}

// A name of 64 bytes is a name, one of 65 bytes is no token.
#[test]
fn long_names(rt: HostRuntime) -> Result<(), Fail> {
    let heap = rt.alloc();
    let name = "a".repeat(heap, 64)?;
    let script = format!(in heap; "def {name}")?;
    let lines = format!(in heap;
        "statement=1\nat=0\nkind=def\nname={name}\ntokens=2\nanswer=0\nplace=-\n"
    )?;
    let longer = format!(in heap; "def a{name}")?;
    let cases = [
        Case {
            script: script.as_bytes(),
            lines: lines.as_bytes(),
        },
        Case {
            script: longer.as_bytes(),
            lines: b"statement=1\nat=0\nkind=def\nname=-\ntokens=2\nanswer=1\nplace=4\n",
        },
    ];
    assert_eq!(rt; first_wrong(heap, outline_text, &cases)?, None);
    Ok(())
}

// 4,000 tokens pass. One more is refused at the statement, but what is no token comes first.
#[test]
fn many_tokens(rt: HostRuntime) -> Result<(), Fail> {
    let heap = rt.alloc();
    let most = " x".repeat(heap, 3999)?;
    let more = " x".repeat(heap, 4000)?;
    let passes = format!(in heap; "check{most}")?;
    let refused = format!(in heap; " check{more}")?;
    let both = format!(in heap; "check{more} ?")?;
    let cases = [
        Case {
            script: passes.as_bytes(),
            lines: b"statement=1\nat=0\nkind=check\nname=-\ntokens=4000\nanswer=0\nplace=-\n",
        },
        Case {
            script: refused.as_bytes(),
            lines: b"statement=1\nat=1\nkind=check\nname=-\ntokens=4001\nanswer=2\nplace=1\n",
        },
        Case {
            script: both.as_bytes(),
            lines: b"statement=1\nat=0\nkind=check\nname=-\ntokens=4002\nanswer=1\nplace=8006\n",
        },
    ];
    assert_eq!(rt; first_wrong(heap, outline_text, &cases)?, None);
    Ok(())
}

// 1,000,000 bytes are outlined, one more is not.
#[test]
fn long_scripts(rt: HostRuntime) -> Result<(), Fail> {
    let heap = rt.alloc();
    let most = blanks(heap, 1_000_000)?;
    let more = blanks(heap, 1_000_001)?;
    let cases = [
        Case {
            script: most.as_slice(),
            lines: b"",
        },
        Case {
            script: more.as_slice(),
            lines: b"answer=13\n",
        },
    ];
    assert_eq!(rt; first_wrong(heap, outline_text, &cases)?, None);
    Ok(())
}
