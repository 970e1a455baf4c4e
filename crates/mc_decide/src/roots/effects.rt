//! Roots in effects.
ghost use Rattle.std.specs.Prelude.{◌≡◌, map, IfOk};
ghost use Rattle.mc_typed.specs.Views.{effect_of};
ghost use Rattle.decide_rules.specs.Nodes as nodes;
ghost use Rattle.decide_walk.specs.steps.Gathering.{gathered_of, inside_parts, visited};

use crate::roots::expressions::{call, place, structure, value};
use decide_rules::Role;
use decide_walk::Gathered;
use mc_typed::Effect;
use std::alloc::AllocError;

/// Adds the roots in an effect.
pub(super) fn effect(found: &mut Gathered, tree: &Effect) -> Result<(), AllocError>
    ensures { IfOk result (λ _. gathered_of found.new
        ≡ visited Role.Plain (nodes.effect (effect_of tree.now)) (gathered_of found.old)) }
{
    match tree {
        Effect::Assign {
            target,
            value: number,
            ..
        }
        | Effect::Update {
            target,
            value: number,
            ..
        } => {
            place(found, target)?;
            value(found, Role::Plain, number)
        }
        Effect::Copy {
            target,
            value: whole,
            ..
        } => {
            place(found, target)?;
            structure(found, whole)
        }
        Effect::Number { value: number, .. } | Effect::Output { value: number, .. } => {
            value(found, Role::Plain, number)
        }
        Effect::Structure { value: whole, .. } => structure(found, whole),
        Effect::Call { call: made } => call(found, made),
        Effect::Choice {
            test,
            chosen,
            other,
            ..
        } => {
            value(found, Role::Controlling, test)?;
            effect(found, chosen)?;
            effect(found, other)
        }
        Effect::Discard { operand, .. } => effect(found, operand),
    }
}

/// Adds the roots in effects that follow each other.
pub(super) fn effects(found: &mut Gathered, trees: &[Effect]) -> Result<(), AllocError>
    ensures { IfOk result (λ _. gathered_of found.new
        ≡ inside_parts (nodes.effects (map effect_of trees.now)) (gathered_of found.old)) }
{
    for tree in trees {
        effect(found, tree)?;
    }
    Ok(())
}
