//! What follows from the definitions. The functions do nothing: each has a law as its contract.
ghost use Rattle.mc_needs.specs.Laws.{OutcomeHasVector, ConditionHasPair};

/// A decision has both outcomes.
pub fn outcome_has_vector()
    ensures { OutcomeHasVector }
{}

/// In each mode each condition of a decision has a pair of vectors.
pub fn condition_has_pair()
    ensures { ConditionHasPair }
{}
