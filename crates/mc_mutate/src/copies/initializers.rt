//! Initializers of mutants.
ghost use Rattle.std.specs.Prelude.{◌≡◌, map, option_map, IfOk};
ghost use Rattle.mc_typed.specs.Views.{declarator_of, initializer_of, initializers_from};
ghost use Rattle.mc_probe.specs.Views as probed;
ghost use Rattle.mc_probe.specs.Bare.{bare_declarator, bare_initializer, bare_initializers};
ghost use Rattle.decide_rules.specs.Nodes as nodes;
ghost use Rattle.mc_mutate.specs.steps.Search.{inside_parts, searched};
ghost use Rattle.mc_mutate.specs.steps.Changed as changed;

use crate::copies::expressions::{expression, structure};
use crate::search::Sought;
use decide_rules::Role;
use mc_typed::{Declarator, Initializer};
use std::alloc::{AllocError, Global};

/// An initializer with the change that is sought.
#[cycle(change)]
fn initializer(
    alloc: Global,
    sought: &mut Sought,
    tree: &Initializer,
) -> Result<Initializer, AllocError>
    ensures tree { IfOk result (λ c. probed.initializer_of c
        ≡ bare_initializer (changed.initializer_changed (initializer_of tree.now) sought.old)) }
    ensures sought { IfOk result (λ _.
        sought.new ≡ searched Role.Plain (nodes.initializer (initializer_of tree.now)) sought.old) }
{
    match tree {
        Initializer::Number { value } => {
            let value = expression(alloc, sought, Role::Plain, value)?;
            Ok(Initializer::Number { value })
        }
        Initializer::Structure { value, cells } => {
            let value = structure(alloc, sought, value)?;
            Ok(Initializer::Structure {
                value,
                cells: *cells,
            })
        }
        Initializer::List { items, cells } => {
            let items = initializers(alloc, sought, items)?;
            Ok(Initializer::List {
                items,
                cells: *cells,
            })
        }
        Initializer::Zero { value, cells } => {
            let value = expression(alloc, sought, Role::Plain, value)?;
            Ok(Initializer::Zero {
                value,
                cells: *cells,
            })
        }
    }
}

#[cycle(change)]
fn initializers(
    alloc: Global,
    sought: &mut Sought,
    trees: &[Initializer],
) -> Result<Vec<Initializer>, AllocError>
    ensures tree { IfOk result (λ c. probed.initializers_from (map probed.initializer_of c.items)
        ≡ bare_initializers (changed.initializers_changed
        (initializers_from (map initializer_of trees.now)) sought.old)) }
    ensures sought { IfOk result (λ _. sought.new
        ≡ inside_parts (nodes.initializers (initializers_from (map initializer_of trees.now)))
        sought.old) }
{
    let mut copies = Vec::with_capacity(alloc, trees.len())?;
    for tree in trees {
        let copy = initializer(alloc, sought, tree)?;
        copies.push(copy)?;
    }
    Ok(copies)
}

fn initial(
    alloc: Global,
    sought: &mut Sought,
    tree: &Option<Initializer>,
) -> Result<Option<Initializer>, AllocError>
    ensures tree { IfOk result (λ c. option_map probed.initializer_of c
        ≡ option_map bare_initializer
        (changed.initial_changed (option_map initializer_of tree.now) sought.old)) }
    ensures sought { IfOk result (λ _. sought.new
        ≡ searched Role.Plain (nodes.initial (option_map initializer_of tree.now)) sought.old) }
{
    match tree {
        Some(value) => {
            let value = initializer(alloc, sought, value)?;
            Ok(Some(value))
        }
        None => Ok(None),
    }
}

fn declarator(
    alloc: Global,
    sought: &mut Sought,
    tree: &Declarator,
) -> Result<Declarator, AllocError>
    ensures tree { IfOk result (λ c. probed.declarator_of c
        ≡ bare_declarator (record (declarator_of tree.now) {
          value = changed.initial_changed (declarator_of tree.now).value sought.old;
        })) }
    ensures sought { IfOk result (λ _. sought.new
        ≡ searched Role.Plain (nodes.initial (declarator_of tree.now).value) sought.old) }
{
    let value = initial(alloc, sought, &tree.value)?;
    Ok(Declarator {
        slot: tree.slot,
        cells: tree.cells,
        value,
    })
}

/// Declarators with the change that is sought.
pub(super) fn declarators(
    alloc: Global,
    sought: &mut Sought,
    trees: &[Declarator],
) -> Result<Vec<Declarator>, AllocError>
    ensures tree { IfOk result (λ c. map probed.declarator_of c.items
        ≡ map bare_declarator
        (changed.declarators_changed (map declarator_of trees.now) sought.old)) }
    ensures sought { IfOk result (λ _. sought.new
        ≡ inside_parts (nodes.declarators (map declarator_of trees.now)) sought.old) }
{
    let mut copies = Vec::with_capacity(alloc, trees.len())?;
    for tree in trees {
        let copy = declarator(alloc, sought, tree)?;
        copies.push(copy)?;
    }
    Ok(copies)
}
