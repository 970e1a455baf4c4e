//! Initializers without probes.
ghost use Rattle.std.specs.Prelude.{◌≡◌, map, option_map, IfOk};
ghost use Rattle.mc_typed.specs.Views as plain;
ghost use Rattle.mc_probe.specs.Views as probed;
ghost use Rattle.mc_probe.specs.Bare.{bare_declarator, bare_initializer, bare_initializers};

use crate::copies::expressions::{expression, structure};
use mc_typed::{Declarator, Initializer};
use std::alloc::{AllocError, Global};

/// A copy of an initializer.
#[cycle(copy)]
fn initializer(alloc: Global, tree: &Initializer) -> Result<Initializer, AllocError>
    ensures { IfOk result (λ c.
        probed.initializer_of c ≡ bare_initializer (plain.initializer_of tree.now)) }
{
    match tree {
        Initializer::Number { value } => {
            let value = expression(alloc, value)?;
            Ok(Initializer::Number { value })
        }
        Initializer::Structure { value, cells } => {
            let value = structure(alloc, value)?;
            Ok(Initializer::Structure {
                value,
                cells: *cells,
            })
        }
        Initializer::List { items, cells } => {
            let items = initializers(alloc, items)?;
            Ok(Initializer::List {
                items,
                cells: *cells,
            })
        }
        Initializer::Zero { value, cells } => {
            let value = expression(alloc, value)?;
            Ok(Initializer::Zero {
                value,
                cells: *cells,
            })
        }
    }
}

#[cycle(copy)]
fn initializers(alloc: Global, trees: &[Initializer]) -> Result<Vec<Initializer>, AllocError>
    ensures { IfOk result (λ c. probed.initializers_from (map probed.initializer_of c.items)
        ≡ bare_initializers (plain.initializers_from (map plain.initializer_of trees.now))) }
{
    let mut copies = Vec::with_capacity(alloc, trees.len())?;
    for tree in trees {
        let copy = initializer(alloc, tree)?;
        copies.push(copy)?;
    }
    Ok(copies)
}

fn initial(alloc: Global, tree: &Option<Initializer>) -> Result<Option<Initializer>, AllocError>
    ensures { IfOk result (λ c. option_map probed.initializer_of c
        ≡ option_map bare_initializer (option_map plain.initializer_of tree.now)) }
{
    match tree {
        Some(value) => {
            let value = initializer(alloc, value)?;
            Ok(Some(value))
        }
        None => Ok(None),
    }
}

fn declarator(alloc: Global, tree: &Declarator) -> Result<Declarator, AllocError>
    ensures { IfOk result (λ c.
        probed.declarator_of c ≡ bare_declarator (plain.declarator_of tree.now)) }
{
    let value = initial(alloc, &tree.value)?;
    Ok(Declarator {
        slot: tree.slot,
        cells: tree.cells,
        value,
    })
}

/// Copies of declarators.
pub(super) fn declarators(
    alloc: Global,
    trees: &[Declarator],
) -> Result<Vec<Declarator>, AllocError>
    ensures { IfOk result (λ c. map probed.declarator_of c.items
        ≡ map bare_declarator (map plain.declarator_of trees.now)) }
{
    let mut copies = Vec::with_capacity(alloc, trees.len())?;
    for tree in trees {
        let copy = declarator(alloc, tree)?;
        copies.push(copy)?;
    }
    Ok(copies)
}
