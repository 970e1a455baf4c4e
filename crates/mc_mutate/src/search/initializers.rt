//! The search in initializers.
ghost use Rattle.std.specs.Prelude.{◌≡◌, map, option_map};
ghost use Rattle.mc_typed.specs.Views.{declarator_of, initializer_of, initializers_from};
ghost use Rattle.decide_rules.specs.Nodes as nodes;
ghost use Rattle.mc_mutate.specs.steps.Search.{inside_parts, searched};

use crate::search::expressions::{expression, structure};
use crate::search::sought::Sought;
use decide_rules::Role;
use mc_typed::{Declarator, Initializer};

/// Goes on in an initializer.
#[cycle(initializer)]
fn initializer(sought: Sought, tree: &Initializer) -> Sought
    ensures { result ≡ searched Role.Plain (nodes.initializer (initializer_of tree.now)) sought }
{
    match tree {
        Initializer::Number { value } | Initializer::Zero { value, .. } => {
            expression(sought, Role::Plain, value)
        }
        Initializer::Structure { value, .. } => structure(sought, value),
        Initializer::List { items, .. } => initializers(sought, items),
    }
}

#[cycle(initializer)]
fn initializers(sought: Sought, trees: &[Initializer]) -> Sought
    ensures { result
        ≡ inside_parts (nodes.initializers (initializers_from (map initializer_of trees.now)))
        sought }
{
    let mut state = sought;
    for tree in trees {
        state = initializer(state, tree);
    }
    state
}

fn initial(sought: Sought, tree: &Option<Initializer>) -> Sought
    ensures { result
        ≡ searched Role.Plain (nodes.initial (option_map initializer_of tree.now)) sought }
{
    match tree {
        Some(value) => initializer(sought, value),
        None => sought,
    }
}

/// Goes on in the initializers of a declaration.
pub(super) fn declarators(sought: Sought, trees: &[Declarator]) -> Sought
    ensures { result ≡ inside_parts (nodes.declarators (map declarator_of trees.now)) sought }
{
    let mut state = sought;
    for tree in trees {
        state = initial(state, &tree.value);
    }
    state
}
