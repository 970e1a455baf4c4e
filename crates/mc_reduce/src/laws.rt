//! What follows from the definitions. The functions do nothing: each has a law as its contract.
ghost use Rattle.mc_reduce.specs.Laws.{ShownIsEvidence, MoreShowMore, KeptShowTheSame, KeptAscend, ReducedIsOne, ReducedAlike};

/// An obligation is shown exactly where it has evidence.
pub fn shown_is_evidence()
    ensures { ShownIsEvidence }
{}

/// What some tests show, more tests show.
pub fn more_show_more()
    ensures { MoreShowMore }
{}

/// An obligation is shown by all tests exactly where the kept ones show it.
pub fn kept_show_the_same()
    ensures { KeptShowTheSame }
{}

/// The kept tests stand in ascending order.
pub fn kept_ascend()
    ensures { KeptAscend }
{}

/// A matrix has one answer.
pub fn reduced_is_one()
    ensures { ReducedIsOne }
{}

/// Matrices that have the same events under the same tests have the same answer.
pub fn reduced_alike()
    ensures { ReducedAlike }
{}
