//! What a statement that is read has: its locals bound, its entries there, its sorts low, and where it
//! enters a name, a new one.
#![tactic(auto)]

ghost use Rattle.standing.specs.Standing.{ReadClosed, ReadBounded, LowNumbers, KindsAgree, NamedStatements};

/// The laws of what is read: its locals are bound, its entries are among those there are and its
/// sorts are at most 65,535; a statement has one kind by its lexemes and by its words, and a def or
/// an axiom that is read has a good name that was not yet entered.
pub fn standing_laws()
    ensures closed { ReadClosed }
    ensures bounded { ReadBounded }
    ensures low { LowNumbers }
    ensures kinds { KindsAgree }
    ensures named { NamedStatements }
{}
