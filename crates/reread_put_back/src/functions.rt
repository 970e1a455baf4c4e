//! Functions with their probes.
ghost use Rattle.std.specs.Prelude.{◌≡◌, map, IfOk};
ghost use Rattle.mc_typed.specs.Views as plain;
ghost use Rattle.mc_probe.specs.Views as probed;
ghost use Rattle.reread_put_back.specs.Back.{back_function};
ghost use Rattle.reread_put_back.specs.Pens.{each};
ghost use Rattle.reread_put_back.specs.steps.Views.{pen_of};

use crate::pen::{Pen, entry_bit, exit_bit, register_count};
use crate::statements::statements;
use crate::walk::Walk;
use mc_typed::Function;
use std::alloc::{AllocError, Global};

/// A copy of a function.
fn function<'a>(
    alloc: Global,
    pen: &mut Pen<'_>,
    tree: &Function<'a>,
) -> Result<Function<'a>, AllocError>
    ensures part { IfOk result (λ c. probed.function_of c
        ≡ (back_function (plain.function_of tree.now) (pen_of pen.old)).0) }
    ensures pen { IfOk result (λ _. pen_of pen.new
        ≡ (back_function (plain.function_of tree.now) (pen_of pen.old)).1) }
{
    let registers = register_count(pen, tree.name_span).unwrap_or(0);
    let entry = entry_bit(pen, tree.name_span);
    let walk = Walk { alloc, registers };
    let body = statements(&walk, pen, &tree.body)?;
    let exit = exit_bit(pen, tree.name_span);
    let parameters = instrument_copies::parameters(alloc, &tree.parameters)?;
    let result = instrument_copies::result_type(&tree.result)?;
    let objects = instrument_copies::local_objects(alloc, &tree.objects)?;
    Ok(Function {
        name: tree.name,
        name_span: tree.name_span,
        parameters,
        result,
        objects,
        body,
        closing: tree.closing,
        registers,
        entry,
        exit,
    })
}

/// Copies of all functions.
pub(crate) fn all_functions<'a>(
    alloc: Global,
    pen: &mut Pen<'_>,
    trees: &[Function<'a>],
) -> Result<Vec<Function<'a>>, AllocError>
    ensures part { IfOk result (λ c. map probed.function_of c.items
        ≡ (each back_function (map plain.function_of trees.now)
        (pen_of pen.old)).0) }
    ensures pen { IfOk result (λ _. pen_of pen.new
        ≡ (each back_function (map plain.function_of trees.now)
        (pen_of pen.old)).1) }
{
    let mut copies = Vec::with_capacity(alloc, trees.len())?;
    for tree in trees {
        let copy = function(alloc, pen, tree)?;
        copies.push(copy)?;
    }
    Ok(copies)
}
