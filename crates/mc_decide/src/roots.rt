//! The walk over the functions of a program.
ghost use Rattle.std.specs.Prelude.{◌≡◌, ◌<◌, ◌^◌, length, map, IfOk};
ghost use Rattle.mc_typed.specs.Views.{function_of};
ghost use Rattle.decide_rules.specs.Nodes as nodes;
ghost use Rattle.decide_walk.specs.steps.Gathering.{gathered_of, in_function, in_functions, inside};

mod effects;
mod expressions;
mod initializers;
mod statements;

use decide_walk::Gathered;
use mc_typed::Function;
use std::alloc::AllocError;

/// Adds the decisions of functions.
pub(crate) fn functions(found: &mut Gathered, trees: &[Function<'_>]) -> Result<(), AllocError>
    requires few { length trees.now < 2 ^ 31 }
    ensures { IfOk result (λ _. gathered_of found.new
        ≡ in_functions 0 (map function_of trees.now) (gathered_of found.old)) }
{
    for (number, tree) in trees.iter().enumerate() {
        function(found, number as u32, tree)?;
    }
    Ok(())
}

/// Adds the decisions of the function with this number.
fn function(found: &mut Gathered, number: u32, tree: &Function<'_>) -> Result<(), AllocError>
    ensures { IfOk result (λ _. gathered_of found.new
        ≡ inside (nodes.function (function_of tree.now))
        (in_function number (gathered_of found.old))) }
{
    found.function = number;
    statements::statements(found, &tree.body)
}
