//! How reserved words and symbols are spelt, by the tables of the specification.
ghost use Rattle.std.specs.Prelude.{◌≡◌};
ghost use Rattle.script.specs.Tokens.{spelt, reserved, begins_with, symbol, symbol_piece};
ghost use Rattle.script.specs.Spellings.{rows};

use crate::token::{FirstWord, Kind, Mark, Piece};

// How a word or a symbol is written, and what it is.
type Spelling = (&'static [u8], Kind);

const SORT_WORDS: [Spelling; 4] = [
    (b"Type", Kind::Fixed(Mark::TypeWord)),
    (b"Prop", Kind::Fixed(Mark::PropWord)),
    (b"Kind", Kind::Fixed(Mark::KindWord)),
    (b"Sort", Kind::Fixed(Mark::SortWord)),
];

const BINDER_WORDS: [Spelling; 7] = [
    (b"fun", Kind::Fixed(Mark::FunWord)),
    (b"Pi", Kind::Fixed(Mark::PiWord)),
    (b"forall", Kind::Fixed(Mark::ForallWord)),
    (b"Sigma", Kind::Fixed(Mark::SigmaWord)),
    (b"exists", Kind::Fixed(Mark::ExistsWord)),
    (b"let", Kind::Fixed(Mark::LetWord)),
    (b"in", Kind::Fixed(Mark::InWord)),
];

const PART_WORDS: [Spelling; 7] = [
    (b"fst", Kind::Fixed(Mark::FstWord)),
    (b"snd", Kind::Fixed(Mark::SndWord)),
    (b"inl", Kind::Fixed(Mark::InlWord)),
    (b"inr", Kind::Fixed(Mark::InrWord)),
    (b"match", Kind::Fixed(Mark::MatchWord)),
    (b"with", Kind::Fixed(Mark::WithWord)),
    (b"end", Kind::Fixed(Mark::EndWord)),
];

const FIRST_WORDS: [Spelling; 7] = [
    (b"def", Kind::First(FirstWord::DefWord)),
    (b"theorem", Kind::First(FirstWord::TheoremWord)),
    (b"lemma", Kind::First(FirstWord::LemmaWord)),
    (b"axiom", Kind::First(FirstWord::AxiomWord)),
    (b"constant", Kind::First(FirstWord::ConstantWord)),
    (b"check", Kind::First(FirstWord::CheckWord)),
    (b"eval", Kind::First(FirstWord::EvalWord)),
];

// The longer before the shorter that it begins with.
const JOINING_SYMBOLS: [Spelling; 6] = [
    (b"->", Kind::Fixed(Mark::Arrow)),
    (b"=>", Kind::Fixed(Mark::Maps)),
    (b":=", Kind::Fixed(Mark::Becomes)),
    (b":", Kind::Fixed(Mark::Colon)),
    (b"/\\", Kind::Fixed(Mark::Times)),
    (b"\\/", Kind::Fixed(Mark::Plus)),
];

const SINGLE_SYMBOLS: [Spelling; 8] = [
    (b"(", Kind::Fixed(Mark::Opens)),
    (b")", Kind::Fixed(Mark::Closes)),
    (b"{", Kind::Fixed(Mark::OpensBrace)),
    (b"}", Kind::Fixed(Mark::ClosesBrace)),
    (b",", Kind::Fixed(Mark::Comma)),
    (b"+", Kind::Fixed(Mark::Plus)),
    (b"*", Kind::Fixed(Mark::Times)),
    (b"|", Kind::Fixed(Mark::Bar)),
];

// What a word is, if the table has it. Inlined, so that the table is known in the loop.
// Stays: a `for`, here and at symbols; tried with `find` and `map`, and the goal on what was found stayed open.
#[inline(always)]
fn spelt(table: &[Spelling], w: &[u8]) -> Option<Kind>
    ensures { result ≡ spelt (rows table.now) w.now }
{
    for (bytes, kind) in table {
        if *bytes == w {
            return Some(*kind);
        }
    }
    None
}

/// The reserved word that these bytes are.
pub fn reserved_word(w: &[u8]) -> Option<Kind>
    ensures { result ≡ reserved w.now }
{
    spelt(&SORT_WORDS, w)
        .or_else(|| spelt(&BINDER_WORDS, w))
        .or_else(|| spelt(&PART_WORDS, w))
        .or_else(|| spelt(&FIRST_WORDS, w))
}

// Whether the bytes begin with these. By `==`, which has no loop of its own to be inlined, so that
// the table's rows are compared one after another as constants.
#[inline(always)]
fn starts(rest: &[u8], bytes: &[u8]) -> bool
    ensures { result ≡ begins_with bytes.now rest.now }
{
    bytes.len() <= rest.len() && bytes == &rest[..bytes.len()]
}

// The first symbol of the table that the bytes begin with. Inlined, as `spelt` is.
#[inline(always)]
fn symbol(table: &[Spelling], rest: &[u8]) -> Option<Piece>
    ensures { result ≡ symbol (rows table.now) rest.now }
{
    for (bytes, kind) in table {
        if starts(rest, bytes) {
            return Some(Piece {
                kind: Some(*kind),
                len: bytes.len(),
            });
        }
    }
    None
}

/// The symbol that the bytes begin with, or one byte that is no token.
pub fn symbol_or_byte(rest: &[u8]) -> Piece
    ensures { result ≡ symbol_piece rest.now }
{
    symbol(&JOINING_SYMBOLS, rest)
        .or_else(|| symbol(&SINGLE_SYMBOLS, rest))
        .unwrap_or(Piece {
            kind: Some(Kind::NoToken),
            len: 1,
        })
}
