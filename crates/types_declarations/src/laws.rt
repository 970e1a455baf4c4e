//! Laws of declarations. The functions do nothing: their contracts have the laws.
ghost use Rattle.types_declarations.specs.Laws.{AutomaticInHalves, StaticInHalves, DefinitionInHalves, SpecifiersFromLeft, LengthsFromLeft, ParametersFromLeft, ParametersLeaveNothing, NamesStay, ParametersCallNothing};

/// A declaration is its two halves: before its initializer or body, and after it.
pub fn declarations_come_in_halves()
    ensures automatic { AutomaticInHalves }
    ensures stored { StaticInHalves }
    ensures definition { DefinitionInHalves }
{}

/// Lists of parts may be gathered from the left, with the first fault alone.
pub fn lists_begin_on_the_left()
    ensures specifiers { SpecifiersFromLeft }
    ensures lengths { LengthsFromLeft }
    ensures parameters { ParametersFromLeft }
{}

/// What parameters declare ends with them; the names from before stay.
pub fn parameters_leave_nothing()
    ensures left { ParametersLeaveNothing }
    ensures names { NamesStay }
    ensures objects { ParametersCallNothing }
{}
