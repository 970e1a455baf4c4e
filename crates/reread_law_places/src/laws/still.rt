//! Laws of probes and places: what is put into a program does not depend on where it stands. The
//! functions do nothing: each has a law as its contract.
ghost use Rattle.reread_law_places.specs.still.Laws.{DecisionsStay, ProbesStay};

/// A program at other places has the same decisions, at those places.
pub fn decisions_stay()
    ensures { DecisionsStay }
{}

/// Its tree with probes is the same, places left out, and so is the number of its bits.
pub fn probes_stay()
    ensures { ProbesStay }
{}
