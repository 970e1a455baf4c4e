//! Pieces of worked texts. The functions do nothing: each has a law as its contract.
ghost use Rattle.reread_pieces.specs.Worked.{TheFunction, TheMisplaced, TheProduct};

/// `int f(int a,int b){return a&&b;}` with all its probes has the pieces that the table inserts.
pub fn function_with_probes()
    ensures { TheFunction }
{}

/// In `x*MCDC_D(0,1,a<b);` the factor is the whole comparison.
pub fn probe_groups()
    ensures { TheProduct }
{}

/// Between statements an event's probe has no place.
pub fn misplaced_probe()
    ensures { TheMisplaced }
{}
