//! How a reader moves over parts and lexemes.
ghost use Rattle.std.specs.Prelude.{◌≡◌, ◌+◌, ◌<◌, ◌≤◌, min, length, drop};
ghost use Rattle.script.specs.Laws.{Rejoins, Cuts};
ghost use Rattle.script.specs.Parts.{line_start, lexemes_from};
ghost use Rattle.script.specs.View.{script, Moves, PartAhead, PartTaken, LexemeTaken, Sought};

use super::Reader;
use crate::lex;
use crate::token::{Lexeme, Part};

impl<'a> Reader<'a> {
    /// A reader at the script's start. Of every script it is proved that its parts put together
    /// again give it back, and that its statements cut its lexemes into runs.
    pub fn new(bytes: &'a [u8]) -> Reader<'a>
        ensures start { (script result ≡ bytes.now) × (result.at ≡ 0) }
        ensures rejoins { Rejoins bytes.now }
        ensures cuts { Cuts (lexemes_from bytes.now 0) }
    {
        Reader {
            script: bytes,
            at: 0,
        }
    }

    /// A reader at a place; one past the script's end counts as the end.
    pub fn from_place(bytes: &'a [u8], at: usize) -> Reader<'a>
        ensures { (script result ≡ bytes.now) × (result.at ≡ min at (length bytes.now)) }
    {
        Reader {
            script: bytes,
            at: at.min(bytes.len()),
        }
    }

    /// The script.
    pub fn script(&self) -> &'a [u8]
        ensures { result.now ≡ script self.now }
    {
        self.script
    }

    /// The place reached.
    pub fn place(&self) -> usize
        ensures { result ≡ self.now.at }
    {
        self.at
    }

    /// The bytes that are left.
    pub fn rest(&self) -> &'a [u8]
        ensures value { result.now ≡ drop self.now.at (script self.now) }
        ensures len { length result.now + self.now.at ≡ length (script self.now) }
    {
        &self.script[self.at..]
    }

    // Whether a line starts at the place reached.
    fn fresh(&self) -> bool
        ensures { result ≡ line_start (script self.now) self.now.at }
    {
        self.script[..self.at].last().is_none_or(|b| *b == b'\n')
    }

    /// The part that comes next, not passed; none at the end.
    pub fn peek(&self) -> Option<Part>
        ensures { PartAhead (script self.now) self.now.at result }
    {
        let piece = lex::first_piece(self.fresh(), self.rest())?;
        Some(Part {
            kind: piece.kind,
            at: self.at,
            len: piece.len,
        })
    }

    /// The next part, passed; none at the end.
    pub fn next_part(&mut self) -> Option<Part>
        ensures { Moves PartTaken self.old self.new result }
    {
        let part = self.peek()?;
        self.at += part.len;
        Some(part)
    }

    /// On to the next lexeme's first byte, or to the end; the lexeme is told and not passed.
    pub fn seek(&mut self) -> Option<Lexeme>
        ensures { Moves Sought self.old self.new result }
    {
        while let Some(part) = self.peek() {
            if let Some(kind) = part.kind {
                return Some(Lexeme {
                    kind,
                    at: part.at,
                    len: part.len,
                });
            }
            self.at += part.len;
        }
        None
    }

    /// The next lexeme, passed; none at the end.
    pub fn next_lexeme(&mut self) -> Option<Lexeme>
        ensures { Moves LexemeTaken self.old self.new result }
    {
        let lexeme = self.seek()?;
        self.at += lexeme.len;
        Some(lexeme)
    }
}
