//! What follows from the definitions. The function does nothing: it has a law as its contract.
ghost use Rattle.hit_sink.specs.Lists.{TheFirstAreKept};

/// Of more hits the first that fit are kept, at the end of the others.
pub fn the_first_are_kept()
    ensures { TheFirstAreKept }
{}
