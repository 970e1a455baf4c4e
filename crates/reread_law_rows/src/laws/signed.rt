//! Laws of the brackets that the table inserts: they are those of the tree. The functions do
//! nothing: each has a law as its contract.
ghost use Rattle.reread_law_rows.specs.signed.Laws.{
  BracketsAreAfterTokens,
  BracketsAreFew,
  SignsAreThoseOfTheTree,
};

use laws_types::programs_have_their_source;

/// The brackets that the table inserts into a text are those that its tree has where as many are
/// put round each expression and each statement.
pub fn signs_are_those_of_the_tree()
    ensures { SignsAreThoseOfTheTree }
{
    programs_have_their_source();
}

/// At most three pairs of parentheses are put round one expression, and what has brackets ends
/// after byte 0.
pub fn brackets_have_places()
    ensures few { BracketsAreFew }
    ensures ends { BracketsAreAfterTokens }
{
    programs_have_their_source();
}
