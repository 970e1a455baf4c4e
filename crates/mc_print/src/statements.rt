//! How statements are printed.
ghost use Rattle.std.specs.Prelude.{map, option_map};
ghost use Rattle.mc_probe.specs.Views.{expression_of, return_value_of, start_of, statement_of, statements_from};
ghost use Rattle.mc_print.specs.Insertions as row;
ghost use Rattle.mc_print.specs.Pens.{◌▸◌};
ghost use Rattle.mc_print.specs.Texts as spec;
ghost use Rattle.mc_print.specs.steps.Holds.{Writes};

use crate::effects::{effect, effects};
use crate::expressions::{expression, structure};
use crate::initializers::declarators;
use crate::insertions::{
    after_counted, before_counted, close_switch, close_value, hit_at, label_after, open_hit_at,
    open_value, word_at,
};
use crate::pen::Pen;
use mc_port::Sink;
use mc_typed::{Expression, ForStart, ReturnValue, Span, Statement};

fn start<K: Sink>(out: &mut K, pen: &mut Pen<'_, '_>, tree: &ForStart)
    ensures { Writes (spec.write_start (start_of tree.now))
        (K.written out.old) (K.faults out.old) pen.old
        (K.written out.new) (K.faults out.new) pen.new }
{
    match tree {
        ForStart::Effects { effects: clauses } => effects(out, pen, clauses),
        ForStart::Declaration {
            declarators: declared,
        } => declarators(out, pen, declared),
    }
}

fn optional<K: Sink>(out: &mut K, pen: &mut Pen<'_, '_>, tree: &Option<Expression>)
    ensures { Writes (spec.write_optional (option_map expression_of tree.now))
        (K.written out.old) (K.faults out.old) pen.old
        (K.written out.new) (K.faults out.new) pen.new }
{
    if let Some(value) = tree {
        expression(out, pen, value);
    }
}

fn value<K: Sink>(out: &mut K, pen: &mut Pen<'_, '_>, tree: &ReturnValue)
    ensures { Writes (spec.write_value (return_value_of tree.now))
        (K.written out.old) (K.faults out.old) pen.old
        (K.written out.new) (K.faults out.new) pen.new }
{
    match tree {
        ReturnValue::Nothing => {}
        ReturnValue::Number { value } => expression(out, pen, value),
        ReturnValue::Structure { value, .. } => structure(out, pen, value),
    }
}

/// A `return` without a value, and its exit.
fn exit_nothing<K: Sink>(out: &mut K, pen: &mut Pen<'_, '_>, bit: u32, span: Span)
    ensures { Writes (spec.exit_nothing bit span)
        (K.written out.old) (K.faults out.old) pen.old
        (K.written out.new) (K.faults out.new) pen.new }
{
    open_hit_at(out, pen, span.start, bit);
    word_at(out, pen, span.end, b"}");
}

/// A `return` and its exit.
fn exit<K: Sink>(out: &mut K, pen: &mut Pen<'_, '_>, bit: u32, span: Span, tree: &ReturnValue)
    ensures { Writes (spec.write_exit bit span (return_value_of tree.now))
        (K.written out.old) (K.faults out.old) pen.old
        (K.written out.new) (K.faults out.new) pen.new }
{
    match tree {
        ReturnValue::Nothing => exit_nothing(out, pen, bit, span),
        ReturnValue::Number { value } => {
            open_value(out, pen, span);
            expression(out, pen, value);
            close_value(out, pen, bit, span);
        }
        ReturnValue::Structure { value, .. } => {
            open_value(out, pen, span);
            structure(out, pen, value);
            close_value(out, pen, bit, span);
        }
    }
}

fn leave<K: Sink>(
    out: &mut K,
    pen: &mut Pen<'_, '_>,
    bit: Option<u32>,
    span: Span,
    tree: &ReturnValue,
)
    ensures { Writes (spec.write_return bit span (return_value_of tree.now))
        (K.written out.old) (K.faults out.old) pen.old
        (K.written out.new) (K.faults out.new) pen.new }
{
    match bit {
        Some(bit) => exit(out, pen, bit, span, tree),
        None => value(out, pen, tree),
    }
}

/// What stands before a counted statement, and the expression that it begins with.
fn begin_with<K: Sink>(
    out: &mut K,
    pen: &mut Pen<'_, '_>,
    bit: Option<u32>,
    span: Span,
    tree: &Expression,
)
    ensures { Writes (row.before_counted bit span ▸ spec.write (expression_of tree.now))
        (K.written out.old) (K.faults out.old) pen.old
        (K.written out.new) (K.faults out.new) pen.new }
{
    before_counted(out, pen, bit, span);
    expression(out, pen, tree);
}

#[cycle(statement)]
fn statement<K: Sink>(out: &mut K, pen: &mut Pen<'_, '_>, tree: &Statement)
    ensures { Writes (spec.write_statement (statement_of tree.now))
        (K.written out.old) (K.faults out.old) pen.old
        (K.written out.new) (K.faults out.new) pen.new }
{
    match tree {
        Statement::Compound { items, .. } => statements(out, pen, items),
        Statement::Label { span, mark, .. } => label_after(out, pen, *mark, *span),
        Statement::Declaration {
            declarators: declared,
            span,
            bit,
        } => {
            hit_at(out, pen, *bit, span.start);
            declarators(out, pen, declared);
        }
        Statement::Null { span, bit } => {
            before_counted(out, pen, *bit, *span);
            after_counted(out, pen, *bit, *span);
        }
        Statement::Effect {
            effect: evaluated,
            span,
            bit,
        } => {
            before_counted(out, pen, *bit, *span);
            effect(out, pen, evaluated);
            after_counted(out, pen, *bit, *span);
        }
        Statement::If {
            test,
            chosen,
            span,
            bit,
            ..
        } => {
            begin_with(out, pen, *bit, *span, test);
            statement(out, pen, chosen);
            after_counted(out, pen, *bit, *span);
        }
        Statement::IfElse {
            test,
            chosen,
            other,
            span,
            bit,
            ..
        } => {
            begin_with(out, pen, *bit, *span, test);
            statement(out, pen, chosen);
            statement(out, pen, other);
            after_counted(out, pen, *bit, *span);
        }
        Statement::Switch {
            value: switched,
            items,
            span,
            bit,
            absent,
            ..
        } => {
            begin_with(out, pen, *bit, *span, switched);
            statements(out, pen, items);
            close_switch(out, pen, *absent, *bit, *span);
        }
        Statement::For {
            start: first,
            test,
            step,
            body,
            span,
            bit,
            ..
        } => {
            before_counted(out, pen, *bit, *span);
            start(out, pen, first);
            optional(out, pen, test);
            effects(out, pen, step);
            statement(out, pen, body);
            after_counted(out, pen, *bit, *span);
        }
        Statement::DoWhile {
            body,
            test,
            span,
            bit,
            ..
        } => {
            before_counted(out, pen, *bit, *span);
            statement(out, pen, body);
            expression(out, pen, test);
            after_counted(out, pen, *bit, *span);
        }
        Statement::Break { span, bit } => {
            before_counted(out, pen, *bit, *span);
            after_counted(out, pen, *bit, *span);
        }
        Statement::Continue { span, bit } => {
            before_counted(out, pen, *bit, *span);
            after_counted(out, pen, *bit, *span);
        }
        Statement::Return {
            value: returned,
            span,
            bit,
            exit,
        } => {
            before_counted(out, pen, *bit, *span);
            leave(out, pen, *exit, *span, returned);
            after_counted(out, pen, *bit, *span);
        }
    }
}

/// The items of a body.
#[cycle(statement)]
pub(crate) fn statements<K: Sink>(out: &mut K, pen: &mut Pen<'_, '_>, trees: &[Statement])
    ensures { Writes (spec.write_statements (statements_from (map statement_of trees.now)))
        (K.written out.old) (K.faults out.old) pen.old
        (K.written out.new) (K.faults out.new) pen.new }
{
    for tree in trees {
        statement(out, pen, tree);
    }
}
