//! Premises of laws. The functions do nothing: each has a law as its contract.
ghost use Rattle.laws_cases.specs.TypeTrees.{EachUnitHasPlaces, ExpressionsAreRead};

/// What holds of every place holds of those of the expressions of each unit.
pub fn each_unit_has_places()
    ensures { EachUnitHasPlaces }
{}

/// Names, constants and comma lists are read, and so is what is made of expressions that are.
pub fn expressions_are_read()
    ensures { ExpressionsAreRead }
{}
