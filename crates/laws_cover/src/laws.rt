//! The functions do nothing: each has a law as its contract.
ghost use Rattle.laws_cover.specs.Laws.{EachStepIsMade, RuleIsItsWords, StepsAreCounted, StepsKeepRule};

/// Whatever steps the passes of a cover make since it is opened, in any order, the rule of the
/// shared words holds after them.
pub fn steps_keep_the_rule()
    ensures { StepsKeepRule }
{}

/// After any such steps, word 0 is the number of claims, and a bit is set exactly where one of the
/// steps hit it: no claim and no hit is lost.
pub fn steps_are_counted()
    ensures { StepsAreCounted }
{}

/// What the rule says in plain words is the whole rule.
pub fn the_rule_is_its_words()
    ensures { RuleIsItsWords }
{}

/// There are such steps: a worked run of two workers has each kind of step.
pub fn a_run_has_each_step()
    ensures { EachStepIsMade }
{}
