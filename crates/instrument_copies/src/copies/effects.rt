//! Effects without probes.
ghost use Rattle.std.specs.Prelude.{◌≡◌, map, IfOk};
ghost use Rattle.mc_typed.specs.Views as plain;
ghost use Rattle.mc_probe.specs.Views as probed;
ghost use Rattle.mc_probe.specs.Bare.{bare_effect};

use crate::copies::expressions::{call, expression, place, structure};
use mc_typed::Effect;
use std::alloc::{AllocError, Global};

/// A copy of an effect.
pub(super) fn effect(alloc: Global, tree: &Effect) -> Result<Effect, AllocError>
    ensures { IfOk result (λ c. probed.effect_of c ≡ bare_effect (plain.effect_of tree.now)) }
{
    match tree {
        Effect::Assign {
            target,
            of,
            value,
            span,
        } => {
            let target = place(alloc, target)?;
            let value = expression(alloc, value)?;
            Ok(Effect::Assign {
                target,
                of: *of,
                value,
                span: *span,
            })
        }
        Effect::Update {
            target,
            of,
            operator,
            common,
            value,
            span,
        } => {
            let target = place(alloc, target)?;
            let value = expression(alloc, value)?;
            Ok(Effect::Update {
                target,
                of: *of,
                operator: *operator,
                common: *common,
                value,
                span: *span,
            })
        }
        Effect::Copy {
            target,
            value,
            cells,
            span,
        } => {
            let target = place(alloc, target)?;
            let value = structure(alloc, value)?;
            Ok(Effect::Copy {
                target,
                value,
                cells: *cells,
                span: *span,
            })
        }
        Effect::Number { value, whole } => {
            let value = expression(alloc, value)?;
            Ok(Effect::Number {
                value,
                whole: *whole,
            })
        }
        Effect::Structure { value, whole } => {
            let value = structure(alloc, value)?;
            Ok(Effect::Structure {
                value,
                whole: *whole,
            })
        }
        Effect::Call { call: made } => {
            let call = call(alloc, made)?;
            Ok(Effect::Call { call })
        }
        Effect::Output { value, span } => {
            let value = expression(alloc, value)?;
            Ok(Effect::Output { value, span: *span })
        }
        Effect::Choice {
            test,
            chosen,
            other,
            span,
        } => {
            let test = expression(alloc, test)?;
            let chosen = Box::new(alloc, effect(alloc, chosen)?)?;
            let other = Box::new(alloc, effect(alloc, other)?)?;
            Ok(Effect::Choice {
                test,
                chosen,
                other,
                span: *span,
            })
        }
        Effect::Discard { operand, span } => {
            let operand = Box::new(alloc, effect(alloc, operand)?)?;
            Ok(Effect::Discard {
                operand,
                span: *span,
            })
        }
    }
}

/// Copies of effects.
pub(super) fn effects(alloc: Global, trees: &[Effect]) -> Result<Vec<Effect>, AllocError>
    ensures { IfOk result (λ c. map probed.effect_of c.items
        ≡ map bare_effect (map plain.effect_of trees.now)) }
{
    let mut copies = Vec::with_capacity(alloc, trees.len())?;
    for tree in trees {
        let copy = effect(alloc, tree)?;
        copies.push(copy)?;
    }
    Ok(copies)
}
