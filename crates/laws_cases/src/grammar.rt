//! Expressions and specifiers. The functions do nothing: each has a law as its contract.
ghost use Rattle.laws_cases.specs.Grammar.{
  AssignmentIsNotConditional,
  ListIsNoAssignment,
  QualifierIsNoType,
};

/// An assignment is no conditional expression, and a comma list is no assignment expression.
pub fn sections_have_an_end()
    ensures assignment { AssignmentIsNotConditional }
    ensures list { ListIsNoAssignment }
{}

/// `const` and `static` alone have no type.
pub fn qualifier_is_no_type()
    ensures { QualifierIsNoType }
{}
