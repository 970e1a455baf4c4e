//! The decisions of a program.
ghost use Rattle.std.specs.Prelude.{◌≡◌, ◌<◌, ◌^◌, map, length, All, IfOk, IfErr, Some, None};
ghost use Rattle.mc_cond.specs.Tree.{tree_of, IsNumbered};
ghost use Rattle.mc_typed.specs.Views.{function_of, program_of};
ghost use Rattle.decide_rules.specs.Decisions.{AreDecisions};
ghost use Rattle.decide_rules.specs.Seen.{decision_of, IsFault};

use crate::roots::functions as walk;
use decide_rules::{DecideFault, Decision};
use decide_walk::{answer, nothing};
use mc_typed::{Function, Program};
use std::alloc::Global;

/// The decisions of a program: one for each root, in the order of the text, the outer one first.
/// Roots are the controlling expressions of `if`, `while`, `do` and `for`, the first operands of
/// `?:`, and the other Boolean expressions that are neither nodes nor conditions of another
/// decision; integer constant expressions are none.
///
/// The fault is `TooManyConditions` exactly where a decision has more than 64 conditions, and names
/// the first. Takes memory in proportion to the program, and time that grows with its size and,
/// under `&`, `|` and `^`, with its height. The stack that it takes grows with the height of the
/// program's tree.
pub fn decisions(alloc: Global, program: &Program<'_>) -> Result<Vec<Decision>, DecideFault>
    ensures decisions { IfOk result (λ ds.
        AreDecisions (program_of program.now).functions (map decision_of ds.items)) }
    ensures numbered { IfOk result (λ ds. All (λ d. IsNumbered (tree_of d.tree)) ds.items) }
    ensures refused { IfErr result (IsFault (program_of program.now).functions) }
{
    decisions_of(alloc, program.functions())
}

/// The same of functions that are numbered from 0 on.
pub fn decisions_of(alloc: Global, functions: &[Function<'_>]) -> Result<Vec<Decision>, DecideFault>
    requires { length functions.now < 2 ^ 31 }
    ensures decisions { IfOk result (λ ds.
        AreDecisions (map function_of functions.now) (map decision_of ds.items)) }
    ensures numbered { IfOk result (λ ds. All (λ d. IsNumbered (tree_of d.tree)) ds.items) }
    ensures refused { IfErr result (IsFault (map function_of functions.now)) }
{
    let mut found = nothing(alloc);
    match walk(&mut found, functions) {
        Ok(()) => answer(found),
        Err(_) => {
            drop(found);
            Err(DecideFault::OutOfMemory)
        }
    }
}
