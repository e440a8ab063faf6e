//! The laws of lifting, lowering and putting in: no local is captured and none is lost.
ghost use Rattle.term.specs.Laws.{SubstitutionLaws};

// Does nothing; its contract is that the laws hold.
#[tactic(auto, using(crate::proofs::Lifting::lifting, crate::proofs::Putting::putting))]
pub fn capture_is_impossible()
    ensures { SubstitutionLaws }
{}
