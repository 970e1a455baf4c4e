//! What follows from the definitions. The functions do nothing: each has a law as its contract.
ghost use Rattle.reread_put_back.specs.Worked.{
  NoPlace,
  NoPlaceInDecision,
  NoRegister,
  PathBehindNoPlace,
  TheAnd,
  TheFlag,
  TheFunction,
  TheSwitch,
  TheXor,
};

/// `int f(int a,int b){return a&&b;}` with all its probes.
pub fn function_with_probes()
    ensures { TheFunction }
{}

/// Probes with a fault: a decision whose register the function does not have, and one at no place.
pub fn first_faults()
    ensures register { NoRegister }
    ensures place { NoPlace }
{}

/// A probe at no place does not hide a fault of the decision round it, which begins before it.
pub fn faults_round_no_place()
    ensures path { PathBehindNoPlace }
    ensures place { NoPlaceInDecision }
{}

/// Round an implied conversion stand the probe of a `switch`, and the condition of a `_Bool`.
pub fn probes_round_conversions()
    ensures switch { TheSwitch }
    ensures flag { TheFlag }
{}

/// The sums of the paths through `a&&!b` and `a^b`, where a adds 1 and b adds 2.
pub fn sums_of_paths()
    ensures conjunction { TheAnd }
    ensures difference { TheXor }
{}
