//! What follows from the definitions. The functions do nothing: each has a law as its contract.
ghost use Rattle.mc_oblige.specs.Laws.{VerdictsAreOne, EvaluatedPathsAreOne};

/// A matrix has one list of verdicts.
pub fn verdicts_are_one()
    ensures { VerdictsAreOne }
{}

/// A matrix has one list of evaluated paths.
pub fn evaluated_paths_are_one()
    ensures { EvaluatedPathsAreOne }
{}
