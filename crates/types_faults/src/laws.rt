//! Laws of faults. The function does nothing: its contract has the laws.
ghost use Rattle.types_faults.specs.Faults.{LeastIsFirst, LeastOfJoined, NoLeastOfNone};

/// A walk that keeps the least fault of each part has the first fault of the whole.
pub fn least_answers()
    ensures joined { LeastOfJoined }
    ensures first { LeastIsFirst }
    ensures none { NoLeastOfNone }
{}
