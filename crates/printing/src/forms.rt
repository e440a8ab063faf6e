//! The fixed bytes of each form: what leads to its first part, what stands between its parts, and
//! how it closes.
ghost use Rattle.std.specs.Prelude.{◌≡◌};
ghost use Rattle.printing.specs.Layout.{one_opens, one_bound, two_opens, two_bound, two_link, two_closes, arm_opens};
ghost use Rattle.printing.specs.Layout.{piece_of, one_piece, first_piece, second_piece, match_piece, arm_piece};

use crate::lead::Lead;
use term::node::{Binary, Unary};

// The arms of a match.
#[derive(Clone, Copy)]
pub(crate) enum Arm {
    Inl,
    Inr,
}

fn one_opens(form: Unary) -> &'static [u8]
    ensures { result.now ≡ one_opens form }
{
    match form {
        Unary::Fun => b"(fun ",
        Unary::Fst => b"(fst ",
        Unary::Snd => b"(snd ",
        Unary::Inl => b"(inl ",
        Unary::Inr => b"(inr ",
    }
}

fn one_bound(form: Unary) -> &'static [u8]
    ensures { result.now ≡ one_bound form }
{
    match form {
        Unary::Fun => b" => ",
        Unary::Fst | Unary::Snd | Unary::Inl | Unary::Inr => b"",
    }
}

pub(crate) fn one_lead(form: Unary) -> Lead<'static>
    ensures { piece_of result ≡ one_piece form }
{
    let binders = u64::from(form.binders());
    Lead {
        opening: one_opens(form),
        names: binders,
        bound: one_bound(form),
        under: binders,
    }
}

fn two_opens(form: Binary) -> &'static [u8]
    ensures { result.now ≡ two_opens form }
{
    match form {
        Binary::Pi => b"(Pi (",
        Binary::Sigma => b"(Sigma (",
        Binary::Exists => b"(exists (",
        Binary::Typed => b"(fun (",
        Binary::Unpack => b"(let {",
        Binary::Let => b"(let ",
        Binary::Pack => b"{",
        Binary::App | Binary::Pair | Binary::Sum | Binary::Ascribe => b"(",
    }
}

fn two_bound(form: Binary) -> &'static [u8]
    ensures { result.now ≡ two_bound form }
{
    match form {
        Binary::Pi | Binary::Sigma | Binary::Exists | Binary::Typed => b" : ",
        Binary::Unpack => b"} := ",
        Binary::Let => b" := ",
        Binary::App | Binary::Pair | Binary::Pack | Binary::Sum | Binary::Ascribe => b"",
    }
}

pub(crate) fn first_lead(form: Binary) -> Lead<'static>
    ensures { piece_of result ≡ first_piece form }
{
    Lead {
        opening: two_opens(form),
        names: u64::from(form.binders()),
        bound: two_bound(form),
        under: 0,
    }
}

fn two_link(form: Binary) -> &'static [u8]
    ensures { result.now ≡ two_link form }
{
    match form {
        Binary::Pi | Binary::Sigma | Binary::Exists => b"), ",
        Binary::Typed => b") => ",
        Binary::App => b" ",
        Binary::Pair | Binary::Pack => b", ",
        Binary::Unpack | Binary::Let => b" in ",
        Binary::Sum => b" + ",
        Binary::Ascribe => b" : ",
    }
}

pub(crate) fn second_lead(form: Binary) -> Lead<'static>
    ensures { piece_of result ≡ second_piece form }
{
    Lead {
        opening: two_link(form),
        names: 0,
        bound: b"",
        under: u64::from(form.binders()),
    }
}

pub(crate) fn two_closes(form: Binary) -> &'static [u8]
    ensures { result.now ≡ two_closes form }
{
    match form {
        Binary::Pack => b"}",
        _ => b")",
    }
}

fn arm_opens(arm: Arm) -> &'static [u8]
    ensures { result.now ≡ arm_opens arm }
{
    match arm {
        Arm::Inl => b" | inl ",
        Arm::Inr => b" | inr ",
    }
}

// Stays: apart from `arm_lead`, of which each field differs or depends on the arm; a constant would have no clause.
pub(crate) fn match_lead() -> Lead<'static>
    ensures { piece_of result ≡ match_piece }
{
    Lead {
        opening: b"(match ",
        names: 0,
        bound: b"",
        under: 0,
    }
}

pub(crate) fn arm_lead(arm: Arm) -> Lead<'static>
    ensures { piece_of result ≡ arm_piece arm }
{
    Lead {
        opening: arm_opens(arm),
        names: 1,
        bound: b" => ",
        under: 1,
    }
}
