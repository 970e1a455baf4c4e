//! What follows from the definitions. The functions do nothing: each has a law as its contract.
ghost use Rattle.decide_rules.specs.Laws.{OneList, StartsAreInOrder};

/// A program has one list of decisions.
pub fn one_list()
    ensures { OneList }
{}

/// Where the nodes of a program stand as in a text, its decisions are in the order of the starts of
/// their roots, and of two that start together the outer one comes first.
pub fn starts_are_in_order()
    ensures { StartsAreInOrder }
{}
