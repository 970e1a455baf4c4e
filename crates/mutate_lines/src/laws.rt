//! What follows from the definitions. The functions do nothing: each has a law as its contract.
ghost use Rattle.mutate_lines.specs.Laws.{AllAreTold, KillersAreOne};

/// There is one list of the least tests that kill mutants.
pub fn killers_are_one()
    ensures { KillersAreOne }
{}

/// Each mutant is killed or survives.
pub fn all_are_told()
    ensures { AllAreTold }
{}
