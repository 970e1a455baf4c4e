//! The walk over statements and blocks.
ghost use Rattle.std.specs.Prelude.{◌≡◌, map, IfOk};
ghost use Rattle.mc_tree.specs.Tree.{BlockItems};
ghost use Rattle.mc_tree.specs.Views.{expression_of};
ghost use Rattle.mc_tree.specs.Units.{block_from, block_item_of, option_of, statement_of};
ghost use Rattle.reread_probes.specs.Statements as spec;
ghost use Rattle.reread_probes.specs.steps.Views.{walk_of};

use crate::counted::{Counted, counted_first, starts_at};
use crate::declarations::{for_parts, local};
use crate::expressions::expression;
use crate::spot::Spot;
use crate::walk::Walk;
use mc_span::Span;
use mc_tree::{BlockItem, Expression, Statement};
use std::alloc::AllocError;

/// Takes the probe of the statement that its braces enclose.
fn enter_counted(walk: &mut Walk<'_>, inner: Option<Counted>) -> Result<(), AllocError>
    ensures { IfOk result (λ _. walk_of walk.new ≡ spec.enter_counted inner (walk_of walk.old)) }
{
    match inner {
        None => {
            walk.refuse();
            Ok(())
        }
        Some(one) => walk.must_take(
            Spot::Statement {
                start: one.span.start,
            },
            one.span,
        ),
    }
}

/// Where braces are not those of the source, takes the probe to which they belong.
fn enter_braces(walk: &mut Walk<'_>, items: &[BlockItem<'_>], span: Span) -> Result<(), AllocError>
    ensures { IfOk result (λ _. walk_of walk.new ≡ spec.enter_braces
        (block_from (map block_item_of items.now)) span (walk_of walk.old)) }
{
    if starts_at(span.start, items) {
        enter_counted(walk, counted_first(items))?;
    }
    Ok(())
}

/// Takes the probe of an absent `default`, after its `switch`.
fn leave_counted(walk: &mut Walk<'_>, inner: Option<Counted>) -> Result<(), AllocError>
    ensures { IfOk result (λ _. walk_of walk.new ≡ spec.leave_counted inner (walk_of walk.old)) }
{
    match inner {
        Some(one) if one.lacks_default => walk.may_take(
            Spot::Default { end: one.span.end },
            one.span,
        ),
        _ => Ok(()),
    }
}

fn leave_braces(walk: &mut Walk<'_>, items: &[BlockItem<'_>], span: Span) -> Result<(), AllocError>
    ensures { IfOk result (λ _. walk_of walk.new ≡ spec.leave_braces
        (block_from (map block_item_of items.now)) span (walk_of walk.old)) }
{
    if starts_at(span.start, items) {
        leave_counted(walk, counted_first(items))?;
    }
    Ok(())
}

/// Takes the probe of a label of a `switch`.
fn take_label(walk: &mut Walk<'_>, label: Span) -> Result<(), AllocError>
    ensures { IfOk result (λ _. walk_of walk.new ≡ spec.take_label label (walk_of walk.old)) }
{
    walk.may_take(Spot::Label { end: label.end }, label)
}

/// Takes the probe after the value of a `return`, where one stands before it.
fn leave_value(walk: &mut Walk<'_>, kept: bool, span: Span) -> Result<(), AllocError>
    ensures { IfOk result (λ _. walk_of walk.new ≡ spec.leave_value kept span (walk_of walk.old)) }
{
    if kept {
        walk.must_take(Spot::ValueEnd, span)?;
    }
    Ok(())
}

fn returned(walk: &mut Walk<'_>, value: &Expression<'_>, span: Span) -> Result<(), AllocError>
    ensures { IfOk result (λ _. walk_of walk.new
        ≡ spec.walk_value (expression_of value.now) span (walk_of walk.old)) }
{
    let kept = walk.stands(Spot::Value { start: span.start });
    walk.pass_if(kept);
    expression(walk, value)?;
    leave_value(walk, kept, span)?;
    Ok(())
}

fn return_statement(
    walk: &mut Walk<'_>,
    value: &Option<Box<Expression<'_>>>,
    span: Span,
) -> Result<(), AllocError>
    ensures { IfOk result (λ _. walk_of walk.new
        ≡ spec.walk_return (option_of value.now) span (walk_of walk.old)) }
{
    match value {
        Some(value) => {
            returned(walk, value, span)?;
            Ok(())
        }
        None => walk.may_take(Spot::Return { start: span.start }, span),
    }
}

#[cycle(walk)]
#[tactic(auto, using(crate::proofs::Trees::statements))]
fn statement(walk: &mut Walk<'_>, tree: &Statement<'_>) -> Result<(), AllocError>
    ensures { IfOk result (λ _. walk_of walk.new
        ≡ spec.walk_statement (statement_of tree.now) (walk_of walk.old)) }
{
    match tree {
        Statement::Compound { items, span } => {
            enter_braces(walk, items, *span)?;
            block(walk, items)?;
            leave_braces(walk, items, *span)?;
            Ok(())
        }
        Statement::Null { .. }
        | Statement::Goto { .. }
        | Statement::Break { .. }
        | Statement::Continue { .. } => Ok(()),
        Statement::Expression { value, .. } => {
            expression(walk, value)?;
            Ok(())
        }
        Statement::If { test, chosen, .. } => {
            expression(walk, test)?;
            statement(walk, chosen)?;
            Ok(())
        }
        Statement::IfElse {
            test,
            chosen,
            other,
            ..
        } => {
            expression(walk, test)?;
            statement(walk, chosen)?;
            statement(walk, other)?;
            Ok(())
        }
        Statement::Switch { value, body, .. } => {
            expression(walk, value)?;
            statement(walk, body)?;
            Ok(())
        }
        Statement::While { test, body, .. } => {
            expression(walk, test)?;
            statement(walk, body)?;
            Ok(())
        }
        Statement::DoWhile { body, test, .. } => {
            statement(walk, body)?;
            expression(walk, test)?;
            Ok(())
        }
        Statement::For {
            start,
            test,
            step,
            body,
            ..
        } => {
            for_parts(walk, start, test, step)?;
            statement(walk, body)?;
            Ok(())
        }
        Statement::Case {
            value,
            label,
            body,
            ..
        } => {
            expression(walk, value)?;
            take_label(walk, *label)?;
            statement(walk, body)?;
            Ok(())
        }
        Statement::Default { label, body, .. } => {
            take_label(walk, *label)?;
            statement(walk, body)?;
            Ok(())
        }
        Statement::Label { body, .. } => {
            statement(walk, body)?;
            Ok(())
        }
        Statement::Return { value, span } => {
            return_statement(walk, value, *span)?;
            Ok(())
        }
    }
}

#[cycle(walk)]
pub(crate) fn block(walk: &mut Walk<'_>, trees: &[BlockItem<'_>]) -> Result<(), AllocError>
    ensures { IfOk result (λ _. walk_of walk.new
        ≡ spec.walk_block (block_from (map block_item_of trees.now)) (walk_of walk.old)) }
{
    for tree in trees {
        block_item(walk, tree)?;
    }
    Ok(())
}

// An item of a block stands before others: the walk goes on with these.
#[cycle(walk)]
#[tactic(auto, using(crate::proofs::Trees::block_items))]
fn block_item(walk: &mut Walk<'_>, tree: &BlockItem<'_>) -> Result<(), AllocError>
    ensures { (rest : BlockItems) → IfOk result (λ _. spec.walk_block rest (walk_of walk.new)
        ≡ spec.walk_block (block_item_of tree.now rest) (walk_of walk.old)) }
{
    match tree {
        BlockItem::Local { declaration } => {
            local(walk, declaration)?;
            Ok(())
        }
        BlockItem::Statement { statement: one } => {
            statement(walk, one)?;
            Ok(())
        }
    }
}
