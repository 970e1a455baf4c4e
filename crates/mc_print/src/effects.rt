//! How effects are printed.
ghost use Rattle.std.specs.Prelude.{map};
ghost use Rattle.mc_probe.specs.Views.{effect_of};
ghost use Rattle.mc_print.specs.Texts as spec;
ghost use Rattle.mc_print.specs.steps.Holds.{Writes};

use crate::expressions::{call, expression, place, structure};
use crate::pen::Pen;
use mc_port::Sink;
use mc_typed::Effect;

/// What is evaluated for its effect.
pub(crate) fn effect<K: Sink>(out: &mut K, pen: &mut Pen<'_, '_>, tree: &Effect)
    ensures { Writes (spec.write_effect (effect_of tree.now))
        (K.written out.old) (K.faults out.old) pen.old
        (K.written out.new) (K.faults out.new) pen.new }
{
    match tree {
        Effect::Assign { target, value, .. } => {
            place(out, pen, target);
            expression(out, pen, value);
        }
        Effect::Update { target, value, .. } => {
            place(out, pen, target);
            expression(out, pen, value);
        }
        Effect::Copy { target, value, .. } => {
            place(out, pen, target);
            structure(out, pen, value);
        }
        Effect::Number { value, .. } => expression(out, pen, value),
        Effect::Structure { value, .. } => structure(out, pen, value),
        Effect::Call { call: made } => call(out, pen, made),
        Effect::Output { value, .. } => expression(out, pen, value),
        Effect::Choice {
            test,
            chosen,
            other,
            ..
        } => {
            expression(out, pen, test);
            effect(out, pen, chosen);
            effect(out, pen, other);
        }
        Effect::Discard { operand, .. } => effect(out, pen, operand),
    }
}

pub(crate) fn effects<K: Sink>(out: &mut K, pen: &mut Pen<'_, '_>, trees: &[Effect])
    ensures { Writes (spec.write_effects (map effect_of trees.now))
        (K.written out.old) (K.faults out.old) pen.old
        (K.written out.new) (K.faults out.new) pen.new }
{
    for tree in trees {
        effect(out, pen, tree);
    }
}
