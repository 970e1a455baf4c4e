//! Decisions of short functions, by the definition. The functions do nothing: each has a law as its
//! contract. Roots, conditions and places were read off the texts by hand.
ghost use Rattle.tests_decide.specs.Samples.{AreRight};
ghost use Rattle.tests_decide.specs.Rows.{calls, constants, effects, expressions, full_operators, initial_values, statements};

/// Operators, operands, objects and what is returned.
pub fn decisions_of_expressions()
    ensures { AreRight expressions }
{}

/// Arguments of calls, also structures and arrays.
pub fn decisions_of_calls()
    ensures { AreRight calls }
{}

/// Assignments, calls of void functions and other expressions as statements.
pub fn decisions_of_effects()
    ensures { AreRight effects }
{}

/// Initial values, in lists and of structures.
pub fn decisions_of_initial_values()
    ensures { AreRight initial_values }
{}

/// Controlling expressions, and statements in statements.
pub fn decisions_of_statements()
    ensures { AreRight statements }
{}

/// `&`, `|` and `^`, between Boolean operands and other ones.
pub fn decisions_of_full_operators()
    ensures { AreRight full_operators }
{}

/// Integer constant expressions, alone and as parts.
pub fn decisions_of_constants()
    ensures { AreRight constants }
{}
