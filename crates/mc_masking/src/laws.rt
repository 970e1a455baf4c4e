//! What follows from the definition of masking pairs.
//! The functions do nothing: each has a law as its contract.

ghost use Rattle.mc_masking.specs.Laws.{
  ChosenIsLeast,
  ChosenIsLeastAlone,
  PairIsEvaluated,
  PairIsOfInfluence,
  PairIsOfInfluenceAlone,
  PairIsOfMasks,
  PairIsOfMasksAlone,
  PairTurns,
};

/// The condition of a pair is evaluated in both vectors, with different values.
pub fn pair_evaluated()
    ensures { PairIsEvaluated }
{}

/// A pair is one in either order.
pub fn pair_turns()
    ensures { PairTurns }
{}

/// Two vectors with the condition true in the first and false in the second are a pair exactly
/// where it has influence in both, and their outcomes differ.
pub fn pair_of_influence()
    ensures { PairIsOfInfluence }
{}

/// Without operators that are evaluated in full influence alone makes a pair.
pub fn pair_of_influence_alone()
    ensures { PairIsOfInfluenceAlone }
{}

/// Two vectors are a pair exactly where both influences have the condition's bit, their values
/// differ in it, and their outcomes differ.
pub fn pair_of_masks()
    ensures { PairIsOfMasks }
{}

/// Without operators that are evaluated in full the masks say it without the outcomes.
pub fn pair_of_masks_alone()
    ensures { PairIsOfMasksAlone }
{}

/// The chosen pair is of two of four least seen paths with influence: one for each value of the
/// condition and each outcome.
pub fn chosen_least()
    ensures { ChosenIsLeast }
{}

/// Without operators that are evaluated in full it is of two least seen paths with influence: one
/// for each value of the condition.
pub fn chosen_least_alone()
    ensures { ChosenIsLeastAlone }
{}
