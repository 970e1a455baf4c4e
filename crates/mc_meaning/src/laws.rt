//! What follows from the definitions. The functions do nothing: each has a law as its contract.
ghost use Rattle.mc_meaning.specs.Laws.{AnswersAreVectors, ConstantsAgree, EvaluationsAreOfDecisions};

/// The answers of an expression's conditions, with its outcome, are a vector of its tree.
pub fn answers_are_vectors()
    ensures { AnswersAreVectors }
{}

/// What a run evaluates are the program's decisions, each under its number, and each vector is one
/// of its decision's tree.
pub fn evaluations_are_of_decisions()
    ensures { EvaluationsAreOfDecisions }
{}

/// The integer constant expressions of `mc_steps` are those of `decide_rules`.
pub fn constants_agree()
    ensures { ConstantsAgree }
{}
