//! What follows from the definitions. The function does nothing: it has a law as its contract.
ghost use Rattle.needs_lines.specs.Laws.{EachHasOneHead};

/// Each obligation that is asked about has one line of its own.
pub fn each_has_one_head()
    ensures { EachHasOneHead }
{}
