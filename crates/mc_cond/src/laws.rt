//! What follows from the definitions of vectors, their completions and influence.
//! The functions do nothing: each has a law as its contract.

ghost use Rattle.mc_cond.specs.Laws.{
  CompletionHasOutcome,
  CompletionHasVector,
  FlipStays,
  InfluenceIsEvaluated,
  InfluenceTurns,
  OperandTakesEither,
  VectorHasCompletion,
};

/// On each completion of a vector the decision's outcome is that of the vector.
pub fn completion_has_outcome()
    ensures { CompletionHasOutcome }
{}

/// Evaluation of a completion of a vector gives the vector again, so no completion belongs to two
/// vectors.
pub fn completion_has_vector()
    ensures { CompletionHasVector }
{}

/// The row that a vector was evaluated on is a completion of it.
pub fn vector_has_completion()
    ensures { VectorHasCompletion }
{}

/// A flip of a condition that was not evaluated leads to another completion of the same vector.
pub fn flip_stays()
    ensures { FlipStays }
{}

/// An operand that was not evaluated can take either value.
pub fn operand_takes_either()
    ensures { OperandTakesEither }
{}

/// A condition with influence is evaluated.
pub fn influence_evaluated()
    ensures { InfluenceIsEvaluated }
{}

/// Two vectors in which a condition has influence, true in the one and false in the other, have
/// other outcomes, in a decision without operators that are evaluated in full.
pub fn influence_turns()
    ensures { InfluenceTurns }
{}
