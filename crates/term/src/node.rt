//! One cell of the arena, and the forms of terms by how many parts they have.
ghost use Rattle.std.specs.Prelude.{◌≡◌, ℕ};
ghost use Rattle.term.specs.Cells.{form};
ghost use Rattle.term.specs.Forms.{binds, binds_last, code, code_two};
ghost use Rattle.term.specs.Term.{Term, place};

// The forms with one part.
#[derive(Clone, Copy, Debug, PartialEq, Eq)]
pub enum Unary {
    Fun,
    Fst,
    Snd,
    Inl,
    Inr,
}

// The forms with two parts.
#[derive(Clone, Copy, Debug, PartialEq, Eq)]
pub enum Binary {
    Pi,
    Sigma,
    Exists,
    Typed,
    App,
    Pair,
    Pack,
    Unpack,
    Sum,
    Ascribe,
    Let,
}

// A cell of a term: its place, and what it is. A part is the index of a lower cell.
#[derive(Clone, Copy, Debug, PartialEq, Eq)]
pub enum Node {
    Sort(usize, u16),
    Local(usize, u64),
    Entry(usize, usize),
    One(usize, Unary, usize),
    Two(usize, Binary, usize, usize),
    Match(usize, usize, usize, usize),
}

// A binder of a context: its type and its binding, if it has them, and the context outside it.
#[derive(Clone, Copy, Debug, PartialEq, Eq)]
pub struct Binder {
    pub kind: Option<usize>,
    pub value: Option<usize>,
    pub outer: Option<usize>,
}

// One cell of the arena: a part of a term, or a binder that is stepped under.
#[derive(Clone, Copy, Debug, PartialEq, Eq)]
pub enum Cell {
    Part(Node),
    Under(Binder),
}

// What is stored of an entry: its type, and its value if it has one.
#[derive(Clone, Copy, Debug, PartialEq, Eq)]
pub struct Stored {
    pub kind: usize,
    pub value: Option<usize>,
}

impl Node {
    // Where it stands in the script.
    pub fn place(self) -> usize
        ensures { (parts : ℕ → Term) → result ≡ place (form self parts) }
    {
        match self {
            Node::Sort(place, _)
            | Node::Local(place, _)
            | Node::Entry(place, _)
            | Node::One(place, _, _)
            | Node::Two(place, _, _, _)
            | Node::Match(place, _, _, _) => place,
        }
    }
}

impl Unary {
    // How many binders stand over the part.
    pub fn binders(self) -> u32
        ensures { result ≡ binds self }
    {
        match self {
            Unary::Fun => 1,
            Unary::Fst | Unary::Snd | Unary::Inl | Unary::Inr => 0,
        }
    }

    // Its number among the forms with one part.
    pub fn code(self) -> u8
        ensures { result ≡ code self }
    {
        match self {
            Unary::Fun => 0,
            Unary::Fst => 1,
            Unary::Snd => 2,
            Unary::Inl => 3,
            Unary::Inr => 4,
        }
    }
}

impl Binary {
    // How many binders stand over the second part.
    pub fn binders(self) -> u32
        ensures { result ≡ binds_last self }
    {
        match self {
            Binary::Pi | Binary::Sigma | Binary::Exists | Binary::Typed | Binary::Let => 1,
            Binary::App | Binary::Pair | Binary::Pack | Binary::Sum | Binary::Ascribe => 0,
            Binary::Unpack => 2,
        }
    }

    // Its number among the forms with two parts.
    pub fn code(self) -> u8
        ensures { result ≡ code_two self }
    {
        match self {
            Binary::Pi => 0,
            Binary::Sigma => 1,
            Binary::Exists => 2,
            Binary::Typed => 3,
            Binary::App => 4,
            Binary::Pair => 5,
            Binary::Pack => 6,
            Binary::Unpack => 7,
            Binary::Sum => 8,
            Binary::Ascribe => 9,
            Binary::Let => 10,
        }
    }
}
