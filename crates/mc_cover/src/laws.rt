//! The laws of the shared words. The function does nothing: its contract has the laws.
ghost use Rattle.mc_cover.specs.Laws.{EachStepKeepsRule, RuleBegins, RuleInWords, StepsAreMoves};

/// What the rule of the shared words says in plain words, that it holds at the start, and that each
/// step keeps it. The steps change word 0 and the coverage words as those of the interleaving core
/// do.
pub fn the_rule_is_kept()
    ensures opening { RuleBegins }
    ensures steps { EachStepKeepsRule }
    ensures moves { StepsAreMoves }
    ensures words { RuleInWords }
{}
