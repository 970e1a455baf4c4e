//! What follows from the definitions. The functions do nothing: each has a law as its contract.
ghost use Rattle.mc_functions.specs.Laws.{FullIsAllMet, FunctionsAreAll, StandsInOne};

/// A place stands in one function, which is the one for which it is counted.
pub fn stands_in_one()
    ensures { StandsInOne }
{}

/// The counts of a kind over all functions are those of the kind among all that is counted.
pub fn functions_are_all()
    ensures { FunctionsAreAll }
{}

/// 100 % are met exactly where all are.
pub fn full_is_all_met()
    ensures { FullIsAllMet }
{}
