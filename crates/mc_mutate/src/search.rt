//! The search for a mutant by its number.
ghost use Rattle.std.specs.Prelude.{◌≡◌, map};
ghost use Rattle.mc_typed.specs.Views.{function_of};
ghost use Rattle.decide_rules.specs.Nodes as nodes;
ghost use Rattle.mc_mutate.specs.steps.Search.{inside_parts};

mod decision;
mod effects;
mod expressions;
mod initializers;
mod sought;
mod statements;

pub(crate) use crate::search::decision::{in_condition, in_decision, in_nodes, is_root, under};
pub(crate) use crate::search::sought::{Sought, pass};
use crate::search::statements::statements;
use mc_typed::Function;

/// Goes on in functions.
pub(crate) fn in_functions(sought: Sought, trees: &[Function<'_>]) -> Sought
    ensures { result ≡ inside_parts (nodes.functions (map function_of trees.now)) sought }
{
    let mut state = sought;
    for tree in trees {
        state = statements(state, &tree.body);
    }
    state
}
