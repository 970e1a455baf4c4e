//! Copies of statements.
ghost use Rattle.std.specs.Prelude.{◌≡◌, IfOk, map, true};
ghost use Rattle.mc_tree.specs.Tree as syntax;
ghost use Rattle.mc_tree.specs.Units.{block_from, block_item_of, statement_of};
ghost use Rattle.reread_plain_tree.specs.Unprobed as spec;
ghost use Rattle.reread_plain_tree.specs.steps.Heaps.{body_of};

use crate::copies::brackets::is_probes;
use crate::copies::declarations::{declaration, optional, start_on_heap};
use crate::copies::expressions::expression;
use crate::copies::nodes::statements as nodes;
use mc_tree::{BlockItem, Span, Statement};
use std::alloc::{AllocError, Global};

/// A copy of a statement.
#[cycle(copy)]
fn statement<'a>(alloc: Global, tree: &Statement<'a>) -> Result<Box<Statement<'a>>, AllocError>
    ensures { IfOk result (λ c. body_of c ≡ spec.unprobed_statement (statement_of tree.now)) }
{
    match tree {
        Statement::Compound { items, span } => compound(alloc, items, *span),
        Statement::Null { span } => nodes::null(alloc, *span),
        Statement::Expression { value, span } => {
            let value = expression(alloc, value)?;
            nodes::expression(alloc, value, *span)
        }
        Statement::If { test, chosen, span } => {
            let test = expression(alloc, test)?;
            let chosen = statement(alloc, chosen)?;
            nodes::if_only(alloc, test, chosen, *span)
        }
        Statement::IfElse {
            test,
            chosen,
            other,
            span,
        } => {
            let test = expression(alloc, test)?;
            let chosen = statement(alloc, chosen)?;
            let other = statement(alloc, other)?;
            nodes::if_else(alloc, test, chosen, other, *span)
        }
        Statement::Switch { value, body, span } => {
            let value = expression(alloc, value)?;
            let body = statement(alloc, body)?;
            nodes::switch(alloc, value, body, *span)
        }
        Statement::While { test, body, span } => {
            let test = expression(alloc, test)?;
            let body = statement(alloc, body)?;
            nodes::while_loop(alloc, test, body, *span)
        }
        Statement::DoWhile { body, test, span } => {
            let body = statement(alloc, body)?;
            let test = expression(alloc, test)?;
            nodes::do_while(alloc, body, test, *span)
        }
        Statement::For {
            start,
            test,
            step,
            body,
            span,
        } => {
            let start = start_on_heap(alloc, start)?;
            let test = optional(alloc, test)?;
            let step = optional(alloc, step)?;
            let body = statement(alloc, body)?;
            nodes::for_loop(alloc, start, test, step, body, *span)
        }
        Statement::Case {
            value,
            label,
            body,
            span,
        } => {
            let value = expression(alloc, value)?;
            let body = statement(alloc, body)?;
            nodes::case(alloc, value, *label, body, *span)
        }
        Statement::Default { label, body, span } => {
            let body = statement(alloc, body)?;
            nodes::default(alloc, *label, body, *span)
        }
        Statement::Label { name, body, span } => {
            let body = statement(alloc, body)?;
            nodes::labeled(alloc, *name, body, *span)
        }
        Statement::Goto { name, span } => nodes::goto(alloc, *name, *span),
        Statement::Break { span } => nodes::break_out(alloc, *span),
        Statement::Continue { span } => nodes::continue_on(alloc, *span),
        Statement::Return { value, span } => {
            let value = optional(alloc, value)?;
            nodes::return_from(alloc, value, *span)
        }
    }
}

/// A copy of the statement that stands alone in braces of a probe.
#[cycle(copy)]
fn enclosed_item<'a>(
    alloc: Global,
    item: &BlockItem<'a>,
    span: Span,
) -> Result<Box<Statement<'a>>, AllocError>
    requires { spec.is_probes (block_item_of item.now syntax.no_block_items) span ≡ true }
    ensures { IfOk result (λ c. body_of c ≡ spec.unprobed_statement
        (syntax.Compound (block_item_of item.now syntax.no_block_items) span)) }
{
    match item {
        BlockItem::Statement { statement: one } => statement(alloc, one),
        BlockItem::Local { .. } => unreachable!(),
    }
}

/// A copy of the statement in braces of a probe.
#[cycle(copy)]
#[tactic(auto, using(crate::proofs::Blocks::several))]
fn enclosed<'a>(
    alloc: Global,
    items: &[BlockItem<'a>],
    span: Span,
) -> Result<Box<Statement<'a>>, AllocError>
    requires { spec.is_probes (block_from (map block_item_of items.now)) span ≡ true }
    ensures { IfOk result (λ c. body_of c ≡ spec.unprobed_statement
        (syntax.Compound (block_from (map block_item_of items.now)) span)) }
{
    match items {
        [item] => enclosed_item(alloc, item, span),
        _ => unreachable!(),
    }
}

/// A copy of a block, or of the statement in it where its braces are a probe's.
#[cycle(copy)]
#[inline(never)]
fn compound<'a>(
    alloc: Global,
    items: &[BlockItem<'a>],
    span: Span,
) -> Result<Box<Statement<'a>>, AllocError>
    ensures { IfOk result (λ c. body_of c ≡ spec.unprobed_statement
        (syntax.Compound (block_from (map block_item_of items.now)) span)) }
{
    if is_probes(items, span) {
        return enclosed(alloc, items, span);
    }
    let items = block(alloc, items)?;
    nodes::compound(alloc, items, span)
}

/// A copy of an item of a block, which stands alone in the clause.
#[cycle(copy)]
fn block_item<'a>(alloc: Global, tree: &BlockItem<'a>) -> Result<BlockItem<'a>, AllocError>
    ensures { IfOk result (λ c. block_item_of c syntax.no_block_items
        ≡ spec.unprobed_block (block_item_of tree.now syntax.no_block_items)) }
{
    match tree {
        BlockItem::Local { declaration: local } => {
            let declaration = declaration(alloc, local)?;
            Ok(BlockItem::Local { declaration })
        }
        BlockItem::Statement { statement: one } => {
            let statement = statement(alloc, one)?;
            Ok(BlockItem::Statement { statement })
        }
    }
}

/// Copies of the items of a block.
#[cycle(copy)]
pub(super) fn block<'a>(
    alloc: Global,
    trees: &[BlockItem<'a>],
) -> Result<Vec<BlockItem<'a>>, AllocError>
    ensures { IfOk result (λ c. block_from (map block_item_of c.items)
        ≡ spec.unprobed_block (block_from (map block_item_of trees.now))) }
{
    let mut copies = Vec::with_capacity(alloc, trees.len())?;
    for tree in trees {
        let copy = block_item(alloc, tree)?;
        copies.push(copy)?;
    }
    Ok(copies)
}
