//! The height of effects.
ghost use Rattle.std.specs.Prelude.{◌≡◌, map};
ghost use Rattle.mc_typed.specs.Levels.{height_effect, height_effects, limited_more};
ghost use Rattle.mc_typed.specs.Views.{effect_of};

use crate::effects::Effect;
use crate::heights::deeper;
use crate::heights::expressions::{call, expression, place, structure};
use std::cmp::max;

pub(super) fn effect(tree: &Effect) -> u32
    ensures { result ≡ height_effect limited_more (effect_of tree.now) }
{
    match tree {
        Effect::Assign { target, value, .. } | Effect::Update { target, value, .. } => {
            deeper(max(place(target), expression(value)))
        }
        Effect::Copy { target, value, .. } => deeper(max(place(target), structure(value))),
        Effect::Number { value, .. } => expression(value),
        Effect::Structure { value, .. } => structure(value),
        Effect::Call { call: made } => call(made),
        Effect::Output { value, .. } => deeper(expression(value)),
        Effect::Choice {
            test,
            chosen,
            other,
            ..
        } => deeper(max(expression(test), max(effect(chosen), effect(other)))),
        Effect::Discard { operand, .. } => deeper(effect(operand)),
    }
}

pub(super) fn effects(trees: &[Effect]) -> u32
    ensures { result ≡ height_effects limited_more (map effect_of trees.now) }
{
    let mut tallest = 0;
    for tree in trees {
        tallest = max(tallest, effect(tree));
    }
    tallest
}
