//! The words of one statement that are still to be read, with one of look-ahead.
use script::reader::Reader;
use script::token::Lexeme;

pub mod look;

/// A reader, the lexeme before it, which is none where the statement ends, and the place of that end.
#[derive(Drop)]
pub struct Ahead<'a> {
    reader: Reader<'a>,
    next: Option<Lexeme>,
    end: usize,
}
