//! What follows from the definitions. The function does nothing: it has a law as its contract.
ghost use Rattle.interp_trail.specs.Worked.{TrailsAreWorked};

/// Where some runs stop, by the events of each.
pub fn trails_are_worked()
    ensures { TrailsAreWorked }
{}
