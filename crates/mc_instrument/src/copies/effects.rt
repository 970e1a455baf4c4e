//! Effects with their probes.
ghost use Rattle.std.specs.Prelude.{◌≡◌, ◌+◌, ◌<◌, ◌^◌, map, IfOk};
ghost use Rattle.mc_typed.specs.Views as plain;
ghost use Rattle.decide_rules.specs.Counts.{roots, roots_in};
ghost use Rattle.decide_rules.specs.Nodes as nodes;
ghost use Rattle.decide_rules.specs.declared.role.Role.TheVariants as role;
ghost use Rattle.mc_probe.specs.BitMaps.{map_of};
ghost use Rattle.mc_probe.specs.Table.{put_effect, put_effects};
ghost use Rattle.mc_probe.specs.Views as probed;

use crate::copies::expressions::{call, expression, place, structure, test};
use crate::copies::walk::Walk;
use mc_typed::Effect;
use std::alloc::AllocError;

/// A copy of an effect.
pub(crate) fn effect(walk: &Walk<'_>, next: &mut u32, tree: &Effect) -> Result<Effect, AllocError>
    requires { next.now + roots role.Plain (nodes.effect (plain.effect_of tree.now)) < 2 ^ 32 }
    ensures copy { IfOk result (λ c. probed.effect_of c
        ≡ put_effect (map_of walk.now.map.now) walk.now.first next.old
        (plain.effect_of tree.now)) }
    ensures next { IfOk result (λ _. next.new
        ≡ next.old + roots role.Plain (nodes.effect (plain.effect_of tree.now))) }
{
    match tree {
        Effect::Assign {
            target,
            of,
            value,
            span,
        } => {
            let target = place(walk, next, target)?;
            let value = expression(walk, next, value)?;
            Ok(Effect::Assign {
                target,
                of: *of,
                value,
                span: *span,
            })
        }
        Effect::Update {
            target,
            of,
            operator,
            common,
            value,
            span,
        } => {
            let target = place(walk, next, target)?;
            let value = expression(walk, next, value)?;
            Ok(Effect::Update {
                target,
                of: *of,
                operator: *operator,
                common: *common,
                value,
                span: *span,
            })
        }
        Effect::Copy {
            target,
            value,
            cells,
            span,
        } => {
            let target = place(walk, next, target)?;
            let value = structure(walk, next, value)?;
            Ok(Effect::Copy {
                target,
                value,
                cells: *cells,
                span: *span,
            })
        }
        Effect::Number { value, whole } => {
            let value = expression(walk, next, value)?;
            Ok(Effect::Number {
                value,
                whole: *whole,
            })
        }
        Effect::Structure { value, whole } => {
            let value = structure(walk, next, value)?;
            Ok(Effect::Structure {
                value,
                whole: *whole,
            })
        }
        Effect::Call { call: made } => {
            let call = call(walk, next, made)?;
            Ok(Effect::Call { call })
        }
        Effect::Output { value, span } => {
            let value = expression(walk, next, value)?;
            Ok(Effect::Output { value, span: *span })
        }
        Effect::Choice {
            test: first,
            chosen,
            other,
            span,
        } => {
            let test = test(walk, next, first)?;
            let chosen = Box::new(walk.alloc, effect(walk, next, chosen)?)?;
            let other = Box::new(walk.alloc, effect(walk, next, other)?)?;
            Ok(Effect::Choice {
                test,
                chosen,
                other,
                span: *span,
            })
        }
        Effect::Discard { operand, span } => {
            let operand = Box::new(walk.alloc, effect(walk, next, operand)?)?;
            Ok(Effect::Discard {
                operand,
                span: *span,
            })
        }
    }
}

/// Copies of effects that follow each other.
pub(crate) fn effects(
    walk: &Walk<'_>,
    next: &mut u32,
    trees: &[Effect],
) -> Result<Vec<Effect>, AllocError>
    requires { next.now + roots_in (nodes.effects (map plain.effect_of trees.now)) < 2 ^ 32 }
    ensures copy { IfOk result (λ c. map probed.effect_of c.items
        ≡ put_effects (map_of walk.now.map.now) walk.now.first next.old
        (map plain.effect_of trees.now)) }
    ensures next { IfOk result (λ _. next.new
        ≡ next.old + roots_in (nodes.effects (map plain.effect_of trees.now))) }
{
    let mut copies = Vec::with_capacity(walk.alloc, trees.len())?;
    for tree in trees {
        let copy = effect(walk, next, tree)?;
        copies.push(copy)?;
    }
    Ok(copies)
}
