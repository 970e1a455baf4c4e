//! How many mutants a program has, and what is changed in each.
ghost use Rattle.mc_limits.specs.Limits.{most_bits};
ghost use Rattle.std.specs.Prelude.{◌≡◌, ◌≤◌, map};
ghost use Rattle.mc_typed.specs.Levels.{limited};
ghost use Rattle.mc_typed.specs.Views.{program_of};
ghost use Rattle.decide_rules.specs.Decisions.{AreDecisions};
ghost use Rattle.decide_rules.specs.Seen.{decision_of};
ghost use Rattle.mc_mutate.specs.Laws.{conditions_in};
ghost use Rattle.mc_mutate.specs.Mutants.{IsChange, count};

use crate::changes::Change;
use crate::search::{Sought, in_functions};
use decide_rules::Decision;
use mc_typed::Program;

/// How many mutants the program with these decisions has: exactly, where the decisions have at most
/// 65,536 conditions together. Else 2^32 - 1 stands for more. Takes no memory.
pub fn count_mutants(decisions: &[Decision], program: &Program<'_>) -> u32
    ensures known { result ≡ limited (count (program_of program.now)) }
    ensures exact { AreDecisions (program_of program.now).functions (map decision_of decisions.now)
        → conditions_in (map decision_of decisions.now) ≤ most_bits
        → result ≡ count (program_of program.now) }
{
    match in_functions(Sought::Left(u32::MAX), program.functions()) {
        Sought::Left(rest) => u32::MAX - rest,
        Sought::Found(_) => u32::MAX,
    }
}

/// What is changed in the mutant of the program with these decisions that has this number, from 1
/// on. Takes no memory.
pub fn change(_decisions: &[Decision], program: &Program<'_>, number: u32) -> Change
    requires first { 1 ≤ number }
    requires last { number ≤ count (program_of program.now) }
    ensures { IsChange (program_of program.now) number result }
{
    match in_functions(Sought::Left(number - 1), program.functions()) {
        Sought::Found(change) => change,
        Sought::Left(_) => unreachable!(),
    }
}
