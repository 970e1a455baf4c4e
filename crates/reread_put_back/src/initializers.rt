//! Initializers with their probes.
ghost use Rattle.std.specs.Prelude.{◌≡◌, map, option_map, IfOk};
ghost use Rattle.mc_typed.specs.Views as plain;
ghost use Rattle.mc_probe.specs.Views as probed;
ghost use Rattle.reread_put_back.specs.Back as spec;
ghost use Rattle.reread_put_back.specs.Pens.{each};
ghost use Rattle.reread_put_back.specs.steps.Views.{pen_of};

use crate::expressions::{expression, structure};
use crate::pen::Pen;
use crate::walk::Walk;
use mc_typed::{Declarator, Initializer};
use std::alloc::AllocError;

/// A copy of an initializer.
#[cycle(initializer)]
fn initializer(
    walk: &Walk,
    pen: &mut Pen<'_>,
    tree: &Initializer,
) -> Result<Initializer, AllocError>
    ensures part { IfOk result (λ c. probed.initializer_of c
        ≡ (spec.back_initializer walk.now.registers (plain.initializer_of tree.now)
        (pen_of pen.old)).0) }
    ensures pen { IfOk result (λ _. pen_of pen.new
        ≡ (spec.back_initializer walk.now.registers (plain.initializer_of tree.now)
        (pen_of pen.old)).1) }
{
    match tree {
        Initializer::Number { value } => {
            let value = expression(walk, pen, value)?;
            Ok(Initializer::Number { value })
        }
        Initializer::Structure { value, cells } => {
            let value = structure(walk, pen, value)?;
            Ok(Initializer::Structure {
                value,
                cells: *cells,
            })
        }
        Initializer::List { items, cells } => {
            let items = initializers(walk, pen, items)?;
            Ok(Initializer::List {
                items,
                cells: *cells,
            })
        }
        Initializer::Zero { value, cells } => {
            let value = instrument_copies::expression(walk.alloc, value)?;
            Ok(Initializer::Zero {
                value,
                cells: *cells,
            })
        }
    }
}

#[cycle(initializer)]
fn initializers(
    walk: &Walk,
    pen: &mut Pen<'_>,
    trees: &[Initializer],
) -> Result<Vec<Initializer>, AllocError>
    ensures part { IfOk result (λ c. probed.initializers_from (map probed.initializer_of c.items)
        ≡ (spec.back_initializers walk.now.registers
        (plain.initializers_from (map plain.initializer_of trees.now))
        (pen_of pen.old)).0) }
    ensures pen { IfOk result (λ _. pen_of pen.new
        ≡ (spec.back_initializers walk.now.registers
        (plain.initializers_from (map plain.initializer_of trees.now))
        (pen_of pen.old)).1) }
{
    let mut copies = Vec::with_capacity(walk.alloc, trees.len())?;
    for tree in trees {
        let copy = initializer(walk, pen, tree)?;
        copies.push(copy)?;
    }
    Ok(copies)
}

fn initial(
    walk: &Walk,
    pen: &mut Pen<'_>,
    tree: &Option<Initializer>,
) -> Result<Option<Initializer>, AllocError>
    ensures part { IfOk result (λ c. option_map probed.initializer_of c
        ≡ (spec.back_initial walk.now.registers (option_map plain.initializer_of tree.now)
        (pen_of pen.old)).0) }
    ensures pen { IfOk result (λ _. pen_of pen.new
        ≡ (spec.back_initial walk.now.registers (option_map plain.initializer_of tree.now)
        (pen_of pen.old)).1) }
{
    match tree {
        Some(value) => {
            let value = initializer(walk, pen, value)?;
            Ok(Some(value))
        }
        None => Ok(None),
    }
}

fn declarator(walk: &Walk, pen: &mut Pen<'_>, tree: &Declarator) -> Result<Declarator, AllocError>
    ensures part { IfOk result (λ c. probed.declarator_of c
        ≡ (spec.back_declarator walk.now.registers (plain.declarator_of tree.now)
        (pen_of pen.old)).0) }
    ensures pen { IfOk result (λ _. pen_of pen.new
        ≡ (spec.back_declarator walk.now.registers (plain.declarator_of tree.now)
        (pen_of pen.old)).1) }
{
    let value = initial(walk, pen, &tree.value)?;
    Ok(Declarator {
        slot: tree.slot,
        cells: tree.cells,
        value,
    })
}

/// Copies of declarators.
pub(crate) fn declarators(
    walk: &Walk,
    pen: &mut Pen<'_>,
    trees: &[Declarator],
) -> Result<Vec<Declarator>, AllocError>
    ensures part { IfOk result (λ c. map probed.declarator_of c.items
        ≡ (each (spec.back_declarator walk.now.registers) (map plain.declarator_of trees.now)
        (pen_of pen.old)).0) }
    ensures pen { IfOk result (λ _. pen_of pen.new
        ≡ (each (spec.back_declarator walk.now.registers) (map plain.declarator_of trees.now)
        (pen_of pen.old)).1) }
{
    let mut copies = Vec::with_capacity(walk.alloc, trees.len())?;
    for tree in trees {
        let copy = declarator(walk, pen, tree)?;
        copies.push(copy)?;
    }
    Ok(copies)
}
