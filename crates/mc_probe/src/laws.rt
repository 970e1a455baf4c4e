//! What follows from the definitions. The functions do nothing: each has a law as its contract.
ghost use Rattle.mc_probe.specs.Laws.{BareTreesAreWellFormed, BareTreesErase, EventsAreListed, FunctionsErase, MapsAreKept, SameTreesAreEqual, TreesEraseToPrograms};

/// A map keeps that its bases and bits are those of the order of the bits, and that each decision
/// has at most 64 conditions, each with its place.
pub fn maps_are_kept()
    ensures { MapsAreKept }
{}

/// The tree of a numbering in a map is that of its decision.
pub fn same_trees_are_equal()
    ensures { SameTreesAreEqual }
{}

/// A tree without its probes is the program that the crate of typed programs sees in it, and so is
/// each function.
pub fn trees_erase_to_programs()
    ensures program { TreesEraseToPrograms }
    ensures function { FunctionsErase }
{}

/// A tree without probes is its program, and well-formed where the program is sound.
pub fn bare_trees_are_programs()
    ensures program { BareTreesErase }
    ensures well_formed { BareTreesAreWellFormed }
{}

/// A map lists as many exits, statements and labels as the events of a program number.
pub fn events_are_listed()
    ensures { EventsAreListed }
{}
