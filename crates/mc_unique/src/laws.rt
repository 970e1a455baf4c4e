//! What follows from the definition of unique-cause pairs.
//! The functions do nothing: each has a law as its contract.

ghost use Rattle.mc_unique.specs.Laws.{
  PairIsEvaluated,
  PairIsOfAnswers,
  PairIsOfMasks,
  PairIsOfPrefix,
  PairTurns,
};

/// The condition of a pair is evaluated in both vectors, with different values.
pub fn pair_evaluated()
    ensures { PairIsEvaluated }
{}

/// A pair is one in either order.
pub fn pair_turns()
    ensures { PairTurns }
{}

/// Two vectors with the condition true in the first and false in the second are a pair exactly
/// where their answers before it are equal, and after it wherever both evaluated a condition, and
/// their outcomes differ.
pub fn pair_of_answers()
    ensures { PairIsOfAnswers }
{}

/// Without operators that are evaluated in full they are a pair exactly where their answers before
/// it are equal, and it has influence in both.
pub fn pair_of_prefix()
    ensures { PairIsOfPrefix }
{}

/// Two vectors are a pair exactly where of the conditions that both evaluated their values differ
/// in this one alone, and their outcomes differ.
pub fn pair_of_masks()
    ensures { PairIsOfMasks }
{}
