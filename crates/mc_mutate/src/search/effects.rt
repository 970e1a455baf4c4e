//! The search in effects.
ghost use Rattle.std.specs.Prelude.{◌≡◌, map};
ghost use Rattle.mc_typed.specs.Views.{effect_of};
ghost use Rattle.decide_rules.specs.Nodes as nodes;
ghost use Rattle.mc_mutate.specs.steps.Search.{inside_parts, searched};

use crate::search::expressions::{call, expression, place, structure};
use crate::search::sought::Sought;
use decide_rules::Role;
use mc_typed::Effect;

/// Goes on in an effect.
pub(super) fn effect(sought: Sought, tree: &Effect) -> Sought
    ensures { result ≡ searched Role.Plain (nodes.effect (effect_of tree.now)) sought }
{
    match tree {
        Effect::Assign { target, value, .. } | Effect::Update { target, value, .. } => {
            let state = place(sought, target);
            expression(state, Role::Plain, value)
        }
        Effect::Copy { target, value, .. } => {
            let state = place(sought, target);
            structure(state, value)
        }
        Effect::Number { value, .. } | Effect::Output { value, .. } => {
            expression(sought, Role::Plain, value)
        }
        Effect::Structure { value, .. } => structure(sought, value),
        Effect::Call { call: made } => call(sought, made),
        Effect::Choice {
            test,
            chosen,
            other,
            ..
        } => {
            let state = expression(sought, Role::Controlling, test);
            let state = effect(state, chosen);
            effect(state, other)
        }
        Effect::Discard { operand, .. } => effect(sought, operand),
    }
}

/// Goes on in effects that follow each other.
pub(super) fn effects(sought: Sought, trees: &[Effect]) -> Sought
    ensures { result ≡ inside_parts (nodes.effects (map effect_of trees.now)) sought }
{
    let mut state = sought;
    for tree in trees {
        state = effect(state, tree);
    }
    state
}
