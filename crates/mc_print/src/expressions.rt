//! How expressions are printed.
ghost use Rattle.std.specs.Prelude.{◌∷◌, [], codes, map};
ghost use Rattle.mc_probe.specs.Views.{argument_of, arguments_from, call_of, expression_of, place_of, structure_of};
ghost use Rattle.mc_print.specs.Insertions.{at, opening};
ghost use Rattle.mc_print.specs.Texts as spec;
ghost use Rattle.mc_print.specs.steps.Holds.{Writes};

use crate::insertions::{open_probe, word_at};
use crate::pen::Pen;
use mc_port::Sink;
use mc_typed::{Argument, Expression, FunctionCall, Place, Probe, Structure};

/// What stands before the operand of a probe.
fn open<K: Sink>(out: &mut K, pen: &mut Pen<'_, '_>, probe: Probe, operand: &Expression)
    ensures { Writes (at (spec.extent (expression_of operand.now)).start (opening probe))
        (K.written out.old) (K.faults out.old) pen.old
        (K.written out.new) (K.faults out.new) pen.new }
{
    open_probe(out, pen, probe, operand.span().start);
}

/// What stands after it.
fn close<K: Sink>(out: &mut K, pen: &mut Pen<'_, '_>, operand: &Expression)
    ensures { Writes (at (spec.extent (expression_of operand.now)).end (codes ")" ∷ []))
        (K.written out.old) (K.faults out.old) pen.old
        (K.written out.new) (K.faults out.new) pen.new }
{
    word_at(out, pen, operand.span().end, b")");
}

#[cycle(write)]
pub(crate) fn place<K: Sink>(out: &mut K, pen: &mut Pen<'_, '_>, tree: &Place)
    ensures { Writes (spec.write_place (place_of tree.now))
        (K.written out.old) (K.faults out.old) pen.old
        (K.written out.new) (K.faults out.new) pen.new }
{
    match tree {
        Place::Local { .. } => {}
        Place::Static { .. } => {}
        Place::Parameter { index, .. } => expression(out, pen, index),
        Place::Item { array, index, .. } => {
            place(out, pen, array);
            expression(out, pen, index);
        }
        Place::Member { structure, .. } => place(out, pen, structure),
    }
}

/// An expression, with the probes round it and in it.
#[cycle(write)]
pub(crate) fn expression<K: Sink>(out: &mut K, pen: &mut Pen<'_, '_>, tree: &Expression)
    ensures { Writes (spec.write (expression_of tree.now))
        (K.written out.old) (K.faults out.old) pen.old
        (K.written out.new) (K.faults out.new) pen.new }
{
    match tree {
        Expression::Constant { .. } => {}
        Expression::Input { .. } => {}
        Expression::Read { place: object, .. } => place(out, pen, object),
        Expression::Unary { operand, .. } => expression(out, pen, operand),
        Expression::Convert { operand, .. } => expression(out, pen, operand),
        Expression::Not { operand, .. } => expression(out, pen, operand),
        Expression::Binary { left, right, .. } => {
            expression(out, pen, left);
            expression(out, pen, right);
        }
        Expression::Logic { left, right, .. } => {
            expression(out, pen, left);
            expression(out, pen, right);
        }
        Expression::Choice {
            test,
            chosen,
            other,
            ..
        } => {
            expression(out, pen, test);
            expression(out, pen, chosen);
            expression(out, pen, other);
        }
        Expression::Call { call: made, .. } => call(out, pen, made),
        Expression::Probe { probe, operand } => {
            let inner: &Expression = operand;
            open(out, pen, *probe, inner);
            expression(out, pen, inner);
            close(out, pen, inner);
        }
    }
}

#[cycle(write)]
pub(crate) fn structure<K: Sink>(out: &mut K, pen: &mut Pen<'_, '_>, tree: &Structure)
    ensures { Writes (spec.write_structure (structure_of tree.now))
        (K.written out.old) (K.faults out.old) pen.old
        (K.written out.new) (K.faults out.new) pen.new }
{
    match tree {
        Structure::Stored { place: object } => place(out, pen, object),
        Structure::Returned { call: made } => call(out, pen, made),
    }
}

#[cycle(write)]
pub(crate) fn call<K: Sink>(out: &mut K, pen: &mut Pen<'_, '_>, tree: &FunctionCall)
    ensures { Writes (spec.write_call (call_of tree.now))
        (K.written out.old) (K.faults out.old) pen.old
        (K.written out.new) (K.faults out.new) pen.new }
{
    arguments(out, pen, &tree.arguments);
}

#[cycle(write)]
fn argument<K: Sink>(out: &mut K, pen: &mut Pen<'_, '_>, tree: &Argument)
    ensures { Writes (spec.write_argument (argument_of tree.now))
        (K.written out.old) (K.faults out.old) pen.old
        (K.written out.new) (K.faults out.new) pen.new }
{
    match tree {
        Argument::Number { value } => expression(out, pen, value),
        Argument::Structure { value, .. } => structure(out, pen, value),
        Argument::Array { place: object, .. } => place(out, pen, object),
        Argument::Again { .. } => {}
    }
}

#[cycle(write)]
fn arguments<K: Sink>(out: &mut K, pen: &mut Pen<'_, '_>, trees: &[Argument])
    ensures { Writes (spec.write_arguments (arguments_from (map argument_of trees.now)))
        (K.written out.old) (K.faults out.old) pen.old
        (K.written out.new) (K.faults out.new) pen.new }
{
    for tree in trees {
        argument(out, pen, tree);
    }
}
