//! Roots in initializers.
ghost use Rattle.std.specs.Prelude.{◌≡◌, map, option_map, IfOk};
ghost use Rattle.mc_typed.specs.Views.{declarator_of, initializer_of, initializers_from};
ghost use Rattle.decide_rules.specs.Nodes as nodes;
ghost use Rattle.decide_walk.specs.steps.Gathering.{gathered_of, inside_parts, visited};

use crate::roots::expressions::{structure, value};
use decide_rules::Role;
use decide_walk::Gathered;
use mc_typed::{Declarator, Initializer};
use std::alloc::AllocError;

/// Adds the roots in an initializer.
#[cycle(initializer)]
fn initializer(found: &mut Gathered, tree: &Initializer) -> Result<(), AllocError>
    ensures { IfOk result (λ _. gathered_of found.new
        ≡ visited Role.Plain (nodes.initializer (initializer_of tree.now))
        (gathered_of found.old)) }
{
    match tree {
        Initializer::Number { value: number } | Initializer::Zero { value: number, .. } => {
            value(found, Role::Plain, number)
        }
        Initializer::Structure { value: whole, .. } => structure(found, whole),
        Initializer::List { items, .. } => initializers(found, items),
    }
}

#[cycle(initializer)]
fn initializers(found: &mut Gathered, trees: &[Initializer]) -> Result<(), AllocError>
    ensures { IfOk result (λ _. gathered_of found.new
        ≡ inside_parts (nodes.initializers (initializers_from (map initializer_of trees.now)))
        (gathered_of found.old)) }
{
    for tree in trees {
        initializer(found, tree)?;
    }
    Ok(())
}

fn initial(found: &mut Gathered, tree: &Option<Initializer>) -> Result<(), AllocError>
    ensures { IfOk result (λ _. gathered_of found.new
        ≡ visited Role.Plain (nodes.initial (option_map initializer_of tree.now))
        (gathered_of found.old)) }
{
    match tree {
        Some(value) => initializer(found, value),
        None => Ok(()),
    }
}

/// Adds the roots in the initializers of a declaration.
pub(super) fn declarators(found: &mut Gathered, trees: &[Declarator]) -> Result<(), AllocError>
    ensures { IfOk result (λ _. gathered_of found.new
        ≡ inside_parts (nodes.declarators (map declarator_of trees.now)) (gathered_of found.old)) }
{
    for tree in trees {
        initial(found, &tree.value)?;
    }
    Ok(())
}
