//! The functions do nothing: each has a law as its contract.
ghost use Rattle.laws_needs.specs.Enough.{NeededIsEnough, OneGivesItsPair, WantedIsEnough};
ghost use Rattle.laws_needs.specs.Needed.{WantedIsNeeded};

/// Where tests that evaluate what an obligation needs are added, it is met.
pub fn needed_vectors_are_enough()
    ensures { NeededIsEnough }
{}

/// Where it is one vector, and that vector alone is added, the report has it with its partner.
pub fn one_vector_gives_its_pair()
    ensures { OneGivesItsPair }
{}

/// Where all wanted vectors are evaluated too, each asked obligation is met.
pub fn wanted_vectors_are_enough()
    ensures { WantedIsEnough }
{}

/// An asked obligation needs each wanted vector, and is missing with what is evaluated and wanted
/// before it.
pub fn wanted_vectors_are_needed()
    ensures { WantedIsNeeded }
{}
