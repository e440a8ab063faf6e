//! What some bytes begin with: a comment, a blank or a lexeme.
ghost use Rattle.std.specs.Prelude.{◌≡◌, ℕ, ◌+◌, ◌-◌, ◌*◌, ◌<◌, ◌≤◌, ◌&&◌, length, codes};
ghost use Rattle.std.specs.List.{prefix_len};
ghost use Rattle.script.specs.Tokens.{letter, word_byte, in_line, blank, name_kind, word_kind, word_piece, number_piece, gap, begins_with, next_piece};
ghost use Rattle.script.specs.Scan.{value_to, judged_number, token_of};

use crate::spell;
use crate::token::{Kind, Piece};

/// Whether a byte is a letter or `_`.
pub fn is_letter(b: u8) -> bool
    ensures { result ≡ letter b }
{
    b.is_ascii_alphabetic() || b == b'_'
}

// Whether a byte can go on with a word.
fn is_word_byte(b: u8) -> bool
    ensures { result ≡ word_byte b }
{
    is_letter(b) || b.is_ascii_digit() || b == b'\''
}

fn is_blank(b: u8) -> bool
    ensures { result ≡ blank b }
{
    matches!(b, b' ' | b'\t' | b'\r' | b'\n')
}

fn name(w: &[u8]) -> Kind
    ensures { result ≡ name_kind w.now }
{
    if w.len() <= 64 && w != b"_".as_slice() {
        Kind::Name
    } else {
        Kind::NoToken
    }
}

fn word(w: &[u8]) -> Kind
    ensures { result ≡ word_kind w.now }
{
    spell::reserved_word(w).unwrap_or_else(|| name(w))
}

// The value that digits write, or none past 65,535.
fn value(w: &[u8]) -> Option<u16>
    ensures { result ≡ value_to 0 w.now }
{
    let mut n = 0u16;
    for b in w {
        if !b.is_ascii_digit() {
            return None;
        }
        n = n.checked_mul(10)?.checked_add(u16::from(*b - b'0'))?;
    }
    Some(n)
}

// Digits, judged.
fn number(w: &[u8]) -> Kind
    ensures { result ≡ judged_number w.now }
{
    match w {
        [] | [b'0', _, ..] => Kind::NoToken,
        _ => value(w).map_or(Kind::NoToken, Kind::Number),
    }
}

// A word: every byte that could go on with it.
// Stays: apart from a number; one function for both would take two closures, and clauses that tie them to the definition.
fn word_piece(rest: &[u8]) -> Piece
    ensures { result ≡ word_piece rest.now }
{
    let len = rest.iter().take_while(|b| is_word_byte(**b)).count();
    Piece {
        kind: Some(word(&rest[..len])),
        len,
    }
}

// A number: every digit.
fn number_piece(rest: &[u8]) -> Piece
    ensures { result ≡ number_piece rest.now }
{
    let len = rest.iter().take_while(|b| b.is_ascii_digit()).count();
    Piece {
        kind: Some(number(&rest[..len])),
        len,
    }
}

// A comment: the rest of the line.
fn comment(rest: &[u8]) -> Piece
    ensures { result ≡ gap (prefix_len in_line rest.now) }
{
    Piece {
        kind: None,
        len: rest.iter().take_while(|b| **b != b'\n').count(),
    }
}

// The lexeme that the bytes begin with.
#[tactic(auto, using(crate::proofs::Pieces::token_is))]
fn lexeme(rest: &[u8]) -> Piece
    requires { 0 < length rest.now }
    ensures { result ≡ token_of rest.now }
{
    if is_letter(rest[0]) {
        word_piece(rest)
    } else if rest[0].is_ascii_digit() {
        number_piece(rest)
    } else {
        spell::symbol_or_byte(rest)
    }
}

// Whether the bytes begin a comment: two dashes at a line's start.
fn is_comment(fresh: bool, rest: &[u8]) -> bool
    ensures { result ≡ (fresh && begins_with (codes "--") rest.now) }
{
    matches!(
        (fresh, rest),
        (true, [_first @ b'-', _second @ b'-', _more @ ..])
    )
}

/// What the bytes begin with; `fresh` where they begin a line.
pub fn first_piece(fresh: bool, rest: &[u8]) -> Option<Piece>
    ensures { result ≡ next_piece fresh rest.now }
{
    let first = *rest.first()?;
    if is_comment(fresh, rest) {
        Some(comment(rest))
    } else if is_blank(first) {
        Some(Piece { kind: None, len: 1 })
    } else {
        Some(lexeme(rest))
    }
}
