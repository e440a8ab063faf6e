//! What a script is made of: tokens, and what parts them.
ghost use Rattle.std.specs.Prelude.{◌≡◌};
ghost use Rattle.script.specs.Marks.{code};

/// A reserved word or a symbol of the language of terms, in this order: what begins an atom, what
/// begins a head, what begins a longer form, what joins, what closes or parts.
#[derive(Clone, Copy, PartialEq, Eq, Debug)]
pub enum Mark {
    TypeWord,
    PropWord,
    KindWord,
    SortWord,
    Opens,
    OpensBrace,
    MatchWord,
    FstWord,
    SndWord,
    InlWord,
    InrWord,
    FunWord,
    PiWord,
    ForallWord,
    SigmaWord,
    ExistsWord,
    LetWord,
    Arrow,
    Plus,
    Times,
    Closes,
    ClosesBrace,
    Comma,
    Colon,
    Becomes,
    Maps,
    Bar,
    InWord,
    WithWord,
    EndWord,
}

impl Mark {
    /// Its number in that order.
    pub fn code(self) -> u8
        ensures { result ≡ code self }
    {
        self as u8
    }
}

/// One of the seven words that begin statements.
#[derive(Clone, Copy, PartialEq, Eq, Debug)]
pub enum FirstWord {
    DefWord,
    TheoremWord,
    LemmaWord,
    AxiomWord,
    ConstantWord,
    CheckWord,
    EvalWord,
}

/// What a lexeme is. `NoToken` is a byte, a word or a number that is none.
// Stays: `NoToken` is a case; a part's kind is an option already, none for blanks, and would be an option of an option.
#[derive(Clone, Copy, PartialEq, Eq, Debug)]
pub enum Kind {
    Name,
    Number(u16),
    Fixed(Mark),
    First(FirstWord),
    NoToken,
}

/// What some bytes begin with, and its length. With no kind it is a blank or a comment.
#[derive(Clone, Copy, PartialEq, Eq, Debug)]
pub struct Piece {
    pub kind: Option<Kind>,
    pub len: usize,
}

/// Something at its place in the script, with its length.
// Stays: no span inside, since the definitions of the layers above speak of `at` and `len` at each lexeme.
#[derive(Clone, Copy, PartialEq, Eq, Debug)]
pub struct Placed<K> {
    pub kind: K,
    pub at: usize,
    pub len: usize,
}

/// A piece at its place.
pub type Part = Placed<Option<Kind>>;

/// A part that is no blank and no comment.
pub type Lexeme = Placed<Kind>;
