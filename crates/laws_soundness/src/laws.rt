//! Laws of names and types. The functions do nothing: each has a law as its contract.
ghost use Rattle.laws_soundness.specs.Fits.{FileScopeFits};
ghost use Rattle.laws_soundness.specs.Growth.{ExpressionsGrow};
ghost use Rattle.laws_soundness.specs.Laws.{
  BodiesAreSound,
  ExpressionsAreSound,
  FunctionNamesDiffer,
  InitializersAreSound,
  ParametersAreSound,
  SpecifiersAreSound,
  UnitsAreFew,
  UnitsArePlain,
  UnitsAreSound,
  UnitsAreTyped,
};

/// What is declared before an expression stays declared, whatever faults there are.
pub fn scopes_grow()
    ensures { ExpressionsGrow }
{}

/// The scope in which a unit begins fits every program.
pub fn file_scope_fits()
    ensures { FileScopeFits }
{}

/// An expression without a fault has a sound value, and its temporary objects are those that it
/// names, in the order of the text. Specifiers without a fault have a type.
pub fn expressions_are_sound()
    ensures expressions { ExpressionsAreSound }
    ensures specifiers { SpecifiersAreSound }
{}

/// An initializer without a fault, for the type of an object of the program, is sound for that
/// object, and has a value of its type for each cell of an object with static storage duration.
pub fn initializers_are_sound()
    ensures { InitializersAreSound }
{}

/// A function's body without a fault, in which no function is declared, has sound statements.
pub fn bodies_are_sound()
    ensures { BodiesAreSound }
{}

/// Parameters without a fault have types, and objects of these types where they are no arrays.
pub fn parameters_are_sound()
    ensures { ParametersAreSound }
{}

/// A unit without a fault and without an outside form has a typed program. It is sound where there
/// are fewer than 2^31 functions, objects with static storage duration and structure types, and
/// there are no more of each than tokens. No two functions have one name.
pub fn units_are_sound()
    ensures typed { UnitsAreTyped }
    ensures sound { UnitsAreSound }
    ensures few { UnitsAreFew }
    ensures names { FunctionNamesDiffer }
{}

/// In a typed program no implied conversion stands on a test or on an operand of `!`, `&&` or `||`,
/// and a list that sets an object to 0 holds an integer constant expression of value 0.
pub fn units_are_plain()
    ensures { UnitsArePlain }
{}
