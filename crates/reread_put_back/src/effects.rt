//! Effects with their probes.
ghost use Rattle.std.specs.Prelude.{◌≡◌, map, IfOk};
ghost use Rattle.mc_typed.specs.Views as plain;
ghost use Rattle.mc_probe.specs.Views as probed;
ghost use Rattle.reread_put_back.specs.Back as spec;
ghost use Rattle.reread_put_back.specs.Pens.{each};
ghost use Rattle.reread_put_back.specs.steps.Views.{pen_of};

use crate::expressions::{call, expression, place, structure};
use crate::pen::Pen;
use crate::walk::Walk;
use mc_typed::Effect;
use std::alloc::AllocError;

/// A copy of an effect.
#[cycle(effect)]
pub(crate) fn effect(walk: &Walk, pen: &mut Pen<'_>, tree: &Effect) -> Result<Effect, AllocError>
    ensures part { IfOk result (λ c. probed.effect_of c
        ≡ (spec.back_effect walk.now.registers (plain.effect_of tree.now) (pen_of pen.old)).0) }
    ensures pen { IfOk result (λ _. pen_of pen.new
        ≡ (spec.back_effect walk.now.registers (plain.effect_of tree.now) (pen_of pen.old)).1) }
{
    match tree {
        Effect::Assign {
            target,
            of,
            value,
            span,
        } => {
            let target = place(walk, pen, target)?;
            let value = expression(walk, pen, value)?;
            Ok(Effect::Assign {
                target,
                of: *of,
                value,
                span: *span,
            })
        }
        Effect::Update {
            target,
            of,
            operator,
            common,
            value,
            span,
        } => {
            let target = place(walk, pen, target)?;
            let value = expression(walk, pen, value)?;
            Ok(Effect::Update {
                target,
                of: *of,
                operator: *operator,
                common: *common,
                value,
                span: *span,
            })
        }
        Effect::Copy {
            target,
            value,
            cells,
            span,
        } => {
            let target = place(walk, pen, target)?;
            let value = structure(walk, pen, value)?;
            Ok(Effect::Copy {
                target,
                value,
                cells: *cells,
                span: *span,
            })
        }
        Effect::Number { value, whole } => {
            let value = expression(walk, pen, value)?;
            Ok(Effect::Number {
                value,
                whole: *whole,
            })
        }
        Effect::Structure { value, whole } => {
            let value = structure(walk, pen, value)?;
            Ok(Effect::Structure {
                value,
                whole: *whole,
            })
        }
        Effect::Call { call: made } => {
            let call = call(walk, pen, made)?;
            Ok(Effect::Call { call })
        }
        Effect::Output { value, span } => {
            let value = expression(walk, pen, value)?;
            Ok(Effect::Output { value, span: *span })
        }
        Effect::Choice {
            test: first,
            chosen,
            other,
            span,
        } => {
            let test = expression(walk, pen, first)?;
            let chosen = boxed(walk, pen, chosen)?;
            let other = boxed(walk, pen, other)?;
            Ok(Effect::Choice {
                test,
                chosen,
                other,
                span: *span,
            })
        }
        Effect::Discard { operand, span } => {
            let operand = boxed(walk, pen, operand)?;
            Ok(Effect::Discard {
                operand,
                span: *span,
            })
        }
    }
}

/// A copy of an effect, on the heap.
#[cycle(effect)]
#[inline(never)]
fn boxed(walk: &Walk, pen: &mut Pen<'_>, tree: &Effect) -> Result<Box<Effect>, AllocError>
    ensures part { IfOk result (λ c. probed.effect_of c.value
        ≡ (spec.back_effect walk.now.registers (plain.effect_of tree.now) (pen_of pen.old)).0) }
    ensures pen { IfOk result (λ _. pen_of pen.new
        ≡ (spec.back_effect walk.now.registers (plain.effect_of tree.now) (pen_of pen.old)).1) }
{
    let copy = effect(walk, pen, tree)?;
    let copy = Box::new(walk.alloc, copy)?;
    Ok(copy)
}

/// Copies of effects that follow each other.
pub(crate) fn effects(
    walk: &Walk,
    pen: &mut Pen<'_>,
    trees: &[Effect],
) -> Result<Vec<Effect>, AllocError>
    ensures part { IfOk result (λ c. map probed.effect_of c.items
        ≡ (each (spec.back_effect walk.now.registers) (map plain.effect_of trees.now)
        (pen_of pen.old)).0) }
    ensures pen { IfOk result (λ _. pen_of pen.new
        ≡ (each (spec.back_effect walk.now.registers) (map plain.effect_of trees.now)
        (pen_of pen.old)).1) }
{
    let mut copies = Vec::with_capacity(walk.alloc, trees.len())?;
    for tree in trees {
        let copy = effect(walk, pen, tree)?;
        copies.push(copy)?;
    }
    Ok(copies)
}
