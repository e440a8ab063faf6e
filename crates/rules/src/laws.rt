//! What holds of all judgements and statements, whatever the sort system and the entries.
ghost use Rattle.rules.specs.Laws.{Laws};

// Does nothing; its contract is that the laws hold.
pub fn one_outcome()
    ensures { Laws }
{}
