//! Statements with their probes.
ghost use Rattle.std.specs.Prelude.{◌≡◌, map, option_map, IfOk};
ghost use Rattle.mc_typed.specs.Tree as typed;
ghost use Rattle.mc_typed.specs.Views as plain;
ghost use Rattle.mc_steps.specs.Points as points;
ghost use Rattle.mc_probe.specs.Views as probed;
ghost use Rattle.reread_put_back.specs.Back as spec;
ghost use Rattle.reread_put_back.specs.Pens.{each};
ghost use Rattle.reread_put_back.specs.steps.Views.{pen_of};

use crate::effects::{effect, effects};
use crate::events::{has_default, initializes};
use crate::expressions::{expression, structure};
use crate::initializers::declarators;
use crate::pen::{Pen, declaration_bit, default_mark, label_mark, return_bit, statement_bit};
use crate::walk::Walk;
use mc_typed::{Declarator, Effect, Expression, ForStart, Mark, ReturnValue, Span, Statement};
use std::alloc::AllocError;

fn start(walk: &Walk, pen: &mut Pen<'_>, tree: &ForStart) -> Result<ForStart, AllocError>
    ensures part { IfOk result (λ c. probed.start_of c
        ≡ (spec.back_start walk.now.registers (plain.start_of tree.now) (pen_of pen.old)).0) }
    ensures pen { IfOk result (λ _. pen_of pen.new
        ≡ (spec.back_start walk.now.registers (plain.start_of tree.now) (pen_of pen.old)).1) }
{
    match tree {
        ForStart::Effects { effects: clauses } => {
            let effects = effects(walk, pen, clauses)?;
            Ok(ForStart::Effects { effects })
        }
        ForStart::Declaration {
            declarators: declared,
        } => {
            let declarators = declarators(walk, pen, declared)?;
            Ok(ForStart::Declaration { declarators })
        }
    }
}

fn optional(
    walk: &Walk,
    pen: &mut Pen<'_>,
    tree: &Option<Expression>,
) -> Result<Option<Expression>, AllocError>
    ensures part { IfOk result (λ c. option_map probed.expression_of c
        ≡ (spec.back_test walk.now.registers (option_map plain.expression_of tree.now)
        (pen_of pen.old)).0) }
    ensures pen { IfOk result (λ _. pen_of pen.new
        ≡ (spec.back_test walk.now.registers (option_map plain.expression_of tree.now)
        (pen_of pen.old)).1) }
{
    match tree {
        Some(value) => {
            let value = expression(walk, pen, value)?;
            Ok(Some(value))
        }
        None => Ok(None),
    }
}

fn return_value(
    walk: &Walk,
    pen: &mut Pen<'_>,
    tree: &ReturnValue,
) -> Result<ReturnValue, AllocError>
    ensures part { IfOk result (λ c. probed.return_value_of c
        ≡ (spec.back_return walk.now.registers (plain.return_value_of tree.now)
        (pen_of pen.old)).0) }
    ensures pen { IfOk result (λ _. pen_of pen.new
        ≡ (spec.back_return walk.now.registers (plain.return_value_of tree.now)
        (pen_of pen.old)).1) }
{
    match tree {
        ReturnValue::Nothing => Ok(ReturnValue::Nothing),
        ReturnValue::Number { value } => {
            let value = expression(walk, pen, value)?;
            Ok(ReturnValue::Number { value })
        }
        ReturnValue::Structure { value, cells } => {
            let value = structure(walk, pen, value)?;
            Ok(ReturnValue::Structure {
                value,
                cells: *cells,
            })
        }
    }
}

/// The bit of a declaration, which has one only where it initializes something.
fn declaration(
    walk: &Walk,
    pen: &mut Pen<'_>,
    declarators: &[Declarator],
    span: Span,
) -> Option<u32>
    ensures part { result ≡ (spec.back_declared walk.now.registers
        (points.initializes (map plain.declarator_of declarators.now)) span (pen_of pen.old)).0 }
    ensures pen { pen_of pen.new ≡ (spec.back_declared walk.now.registers
        (points.initializes (map plain.declarator_of declarators.now)) span (pen_of pen.old)).1 }
{
    if initializes(declarators) {
        declaration_bit(pen, walk.registers, span)
    } else {
        None
    }
}

/// The probe of an absent `default`.
fn mark_unless_default(
    walk: &Walk,
    pen: &mut Pen<'_>,
    items: &[Statement],
    span: Span,
) -> Option<Mark>
    ensures part { result ≡ (spec.back_absent walk.now.registers
        (points.has_default (plain.statements_from (map plain.statement_of items.now))) span
        (pen_of pen.old)).0 }
    ensures pen { pen_of pen.new ≡ (spec.back_absent walk.now.registers
        (points.has_default (plain.statements_from (map plain.statement_of items.now))) span
        (pen_of pen.old)).1 }
{
    if has_default(items) {
        None
    } else {
        default_mark(pen, walk.registers, span)
    }
}

/// What a `for` has beside its body.
#[derive(Drop)]
struct Head {
    start: ForStart,
    test: Option<Expression>,
    step: Vec<Effect>,
}

/// Copies of what a `for` has beside its body.
fn for_head(
    walk: &Walk,
    pen: &mut Pen<'_>,
    first: &ForStart,
    test: &Option<Expression>,
    step: &[Effect],
) -> Result<Head, AllocError>
    ensures start { IfOk result (λ h. probed.start_of h.start
        ≡ (spec.back_head walk.now.registers (plain.start_of first.now)
        (option_map plain.expression_of test.now) (map plain.effect_of step.now)
        (pen_of pen.old)).0.start) }
    ensures test { IfOk result (λ h. option_map probed.expression_of h.test
        ≡ (spec.back_head walk.now.registers (plain.start_of first.now)
        (option_map plain.expression_of test.now) (map plain.effect_of step.now)
        (pen_of pen.old)).0.test) }
    ensures step { IfOk result (λ h. map probed.effect_of h.step.items
        ≡ (spec.back_head walk.now.registers (plain.start_of first.now)
        (option_map plain.expression_of test.now) (map plain.effect_of step.now)
        (pen_of pen.old)).0.step) }
    ensures pen { IfOk result (λ _. pen_of pen.new
        ≡ (spec.back_head walk.now.registers (plain.start_of first.now)
        (option_map plain.expression_of test.now) (map plain.effect_of step.now)
        (pen_of pen.old)).1) }
{
    let start = start(walk, pen, first)?;
    let test = optional(walk, pen, test)?;
    let step = effects(walk, pen, step)?;
    Ok(Head { start, test, step })
}

/// A declaration with its probes.
#[inline(never)]
fn declared(
    walk: &Walk,
    pen: &mut Pen<'_>,
    trees: &[Declarator],
    span: Span,
) -> Result<Statement, AllocError>
    ensures part { IfOk result (λ c. probed.statement_of c
        ≡ (spec.back_statement walk.now.registers
        (typed.Declaration (map plain.declarator_of trees.now) span)
        (pen_of pen.old)).0) }
    ensures pen { IfOk result (λ _. pen_of pen.new
        ≡ (spec.back_statement walk.now.registers
        (typed.Declaration (map plain.declarator_of trees.now) span)
        (pen_of pen.old)).1) }
{
    let bit = declaration(walk, pen, trees, span);
    let declarators = declarators(walk, pen, trees)?;
    Ok(Statement::Declaration {
        declarators,
        span,
        bit,
    })
}

/// An effect as a statement with its probes.
#[inline(never)]
fn performed(
    walk: &Walk,
    pen: &mut Pen<'_>,
    tree: &Effect,
    span: Span,
) -> Result<Statement, AllocError>
    ensures part { IfOk result (λ c. probed.statement_of c
        ≡ (spec.back_statement walk.now.registers
        (typed.EffectStatement (plain.effect_of tree.now) span)
        (pen_of pen.old)).0) }
    ensures pen { IfOk result (λ _. pen_of pen.new
        ≡ (spec.back_statement walk.now.registers
        (typed.EffectStatement (plain.effect_of tree.now) span)
        (pen_of pen.old)).1) }
{
    let bit = statement_bit(pen, walk.registers, span);
    let effect = effect(walk, pen, tree)?;
    Ok(Statement::Effect { effect, span, bit })
}

/// A `return` with its probes.
#[inline(never)]
fn returned(
    walk: &Walk,
    pen: &mut Pen<'_>,
    tree: &ReturnValue,
    span: Span,
) -> Result<Statement, AllocError>
    ensures part { IfOk result (λ c. probed.statement_of c
        ≡ (spec.back_statement walk.now.registers
        (typed.Return (plain.return_value_of tree.now) span)
        (pen_of pen.old)).0) }
    ensures pen { IfOk result (λ _. pen_of pen.new
        ≡ (spec.back_statement walk.now.registers
        (typed.Return (plain.return_value_of tree.now) span)
        (pen_of pen.old)).1) }
{
    let bit = statement_bit(pen, walk.registers, span);
    let value = return_value(walk, pen, tree)?;
    let exit = return_bit(pen, walk.registers, span);
    Ok(Statement::Return {
        value,
        span,
        bit,
        exit,
    })
}

/// A copy of a statement. A function clears all its values as it begins, and its frame has room for
/// all of them, so most kinds of statements have a function of their own.
#[cycle(statement)]
fn statement(walk: &Walk, pen: &mut Pen<'_>, tree: &Statement) -> Result<Statement, AllocError>
    ensures part { IfOk result (λ c. probed.statement_of c
        ≡ (spec.back_statement walk.now.registers (plain.statement_of tree.now)
        (pen_of pen.old)).0) }
    ensures pen { IfOk result (λ _. pen_of pen.new
        ≡ (spec.back_statement walk.now.registers (plain.statement_of tree.now)
        (pen_of pen.old)).1) }
{
    match tree {
        Statement::Compound { items, span } => {
            let items = statements(walk, pen, items)?;
            Ok(Statement::Compound { items, span: *span })
        }
        Statement::Label { value, span, .. } => {
            let mark = label_mark(pen, walk.registers, *span);
            Ok(Statement::Label {
                value: *value,
                span: *span,
                mark,
            })
        }
        Statement::Declaration {
            declarators: trees,
            span,
            ..
        } => declared(walk, pen, trees, *span),
        Statement::Null { span, .. } => {
            let bit = statement_bit(pen, walk.registers, *span);
            Ok(Statement::Null { span: *span, bit })
        }
        Statement::Effect { effect, span, .. } => performed(walk, pen, effect, *span),
        Statement::If {
            test,
            chosen,
            keyword,
            span,
            ..
        } => if_alone(walk, pen, chosen, test, *keyword, *span),
        Statement::IfElse {
            test: first,
            chosen,
            other,
            keyword,
            span,
            ..
        } => {
            let bit = statement_bit(pen, walk.registers, *span);
            let test = expression(walk, pen, first)?;
            let chosen = boxed(walk, pen, chosen)?;
            let other = boxed(walk, pen, other)?;
            Ok(Statement::IfElse {
                test,
                chosen,
                other,
                keyword: *keyword,
                span: *span,
                bit,
            })
        }
        Statement::Switch {
            value,
            items,
            keyword,
            span,
            ..
        } => switch(walk, pen, items, value, *keyword, *span),
        Statement::For {
            start: first,
            test,
            step,
            body,
            keyword,
            span,
            ..
        } => for_loop(walk, pen, body, first, test, step, *keyword, *span),
        Statement::DoWhile {
            body,
            test,
            keyword,
            span,
            ..
        } => do_while(walk, pen, body, test, *keyword, *span),
        Statement::Break { span, .. } => {
            let bit = statement_bit(pen, walk.registers, *span);
            Ok(Statement::Break { span: *span, bit })
        }
        Statement::Continue { span, .. } => {
            let bit = statement_bit(pen, walk.registers, *span);
            Ok(Statement::Continue { span: *span, bit })
        }
        Statement::Return { value, span, .. } => returned(walk, pen, value, *span),
    }
}

/// The same on the heap.
#[cycle(statement)]
#[inline(never)]
fn boxed(walk: &Walk, pen: &mut Pen<'_>, tree: &Statement) -> Result<Box<Statement>, AllocError>
    ensures part { IfOk result (λ c. probed.statement_of c.value
        ≡ (spec.back_statement walk.now.registers (plain.statement_of tree.now)
        (pen_of pen.old)).0) }
    ensures pen { IfOk result (λ _. pen_of pen.new
        ≡ (spec.back_statement walk.now.registers (plain.statement_of tree.now)
        (pen_of pen.old)).1) }
{
    let copy = statement(walk, pen, tree)?;
    let copy = Box::new(walk.alloc, copy)?;
    Ok(copy)
}

/// An `if` without `else`.
#[cycle(statement)]
#[inline(never)]
fn if_alone(
    walk: &Walk,
    pen: &mut Pen<'_>,
    chosen: &Statement,
    test: &Expression,
    keyword: Span,
    span: Span,
) -> Result<Statement, AllocError>
    ensures part { IfOk result (λ c. probed.statement_of c
        ≡ (spec.back_statement walk.now.registers
        (typed.If (plain.expression_of test.now) (plain.statement_of chosen.now) keyword
        span)
        (pen_of pen.old)).0) }
    ensures pen { IfOk result (λ _. pen_of pen.new
        ≡ (spec.back_statement walk.now.registers
        (typed.If (plain.expression_of test.now) (plain.statement_of chosen.now) keyword
        span)
        (pen_of pen.old)).1) }
{
    let bit = statement_bit(pen, walk.registers, span);
    let test = expression(walk, pen, test)?;
    let chosen = boxed(walk, pen, chosen)?;
    Ok(Statement::If {
        test,
        chosen,
        keyword,
        span,
        bit,
    })
}

/// A `switch` with its probes.
#[cycle(statement)]
#[inline(never)]
fn switch(
    walk: &Walk,
    pen: &mut Pen<'_>,
    trees: &[Statement],
    value: &Expression,
    keyword: Span,
    span: Span,
) -> Result<Statement, AllocError>
    ensures part { IfOk result (λ c. probed.statement_of c
        ≡ (spec.back_statement walk.now.registers
        (typed.Switch (plain.expression_of value.now)
        (plain.statements_from (map plain.statement_of trees.now)) keyword span)
        (pen_of pen.old)).0) }
    ensures pen { IfOk result (λ _. pen_of pen.new
        ≡ (spec.back_statement walk.now.registers
        (typed.Switch (plain.expression_of value.now)
        (plain.statements_from (map plain.statement_of trees.now)) keyword span)
        (pen_of pen.old)).1) }
{
    let bit = statement_bit(pen, walk.registers, span);
    let value = expression(walk, pen, value)?;
    let items = statements(walk, pen, trees)?;
    let absent = mark_unless_default(walk, pen, trees, span);
    Ok(Statement::Switch {
        value,
        items,
        keyword,
        span,
        bit,
        absent,
    })
}

/// A `for` or a `while` with its probes.
#[cycle(statement)]
#[inline(never)]
fn for_loop(
    walk: &Walk,
    pen: &mut Pen<'_>,
    body: &Statement,
    first: &ForStart,
    test: &Option<Expression>,
    step: &[Effect],
    keyword: Span,
    span: Span,
) -> Result<Statement, AllocError>
    ensures part { IfOk result (λ c. probed.statement_of c
        ≡ (spec.back_statement walk.now.registers
        (typed.For (plain.start_of first.now) (option_map plain.expression_of test.now)
        (map plain.effect_of step.now) (plain.statement_of body.now) keyword span)
        (pen_of pen.old)).0) }
    ensures pen { IfOk result (λ _. pen_of pen.new
        ≡ (spec.back_statement walk.now.registers
        (typed.For (plain.start_of first.now) (option_map plain.expression_of test.now)
        (map plain.effect_of step.now) (plain.statement_of body.now) keyword span)
        (pen_of pen.old)).1) }
{
    let bit = statement_bit(pen, walk.registers, span);
    let head = for_head(walk, pen, first, test, step)?;
    let body = boxed(walk, pen, body)?;
    Ok(Statement::For {
        start: head.start,
        test: head.test,
        step: head.step,
        body,
        keyword,
        span,
        bit,
    })
}

/// A `do` with its probes.
#[cycle(statement)]
#[inline(never)]
fn do_while(
    walk: &Walk,
    pen: &mut Pen<'_>,
    body: &Statement,
    test: &Expression,
    keyword: Span,
    span: Span,
) -> Result<Statement, AllocError>
    ensures part { IfOk result (λ c. probed.statement_of c
        ≡ (spec.back_statement walk.now.registers
        (typed.DoWhile (plain.statement_of body.now) (plain.expression_of test.now) keyword
        span)
        (pen_of pen.old)).0) }
    ensures pen { IfOk result (λ _. pen_of pen.new
        ≡ (spec.back_statement walk.now.registers
        (typed.DoWhile (plain.statement_of body.now) (plain.expression_of test.now) keyword
        span)
        (pen_of pen.old)).1) }
{
    let bit = statement_bit(pen, walk.registers, span);
    let body = boxed(walk, pen, body)?;
    let test = expression(walk, pen, test)?;
    Ok(Statement::DoWhile {
        body,
        test,
        keyword,
        span,
        bit,
    })
}

/// Copies of the items of a body.
#[cycle(statement)]
pub(crate) fn statements(
    walk: &Walk,
    pen: &mut Pen<'_>,
    trees: &[Statement],
) -> Result<Vec<Statement>, AllocError>
    ensures part { IfOk result (λ c. probed.statements_from (map probed.statement_of c.items)
        ≡ (spec.back_statements walk.now.registers
        (plain.statements_from (map plain.statement_of trees.now))
        (pen_of pen.old)).0) }
    ensures pen { IfOk result (λ _. pen_of pen.new
        ≡ (spec.back_statements walk.now.registers
        (plain.statements_from (map plain.statement_of trees.now))
        (pen_of pen.old)).1) }
{
    let mut copies = Vec::with_capacity(walk.alloc, trees.len())?;
    for tree in trees {
        let copy = statement(walk, pen, tree)?;
        copies.push(copy)?;
    }
    Ok(copies)
}
