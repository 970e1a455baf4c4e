//! Names and types. The functions do nothing: each has a law as its contract.
ghost use Rattle.types_rules.specs.Sampled.{Answers};
ghost use Rattle.laws_cases.specs.Texts as texts;
ghost use Rattle.laws_cases.specs.Told.{WrongAnswersAreNone};

/// Short texts on tags, typedef names, lengths and `?:`, each with its first fault.
pub fn texts_on_names()
    ensures { Answers texts.all }
{}

/// A table of texts with a wrong answer is no table of answers.
pub fn each_text_is_told()
    ensures { WrongAnswersAreNone }
{}
