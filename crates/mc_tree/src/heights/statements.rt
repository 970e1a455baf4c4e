//! The height of statements and blocks.
ghost use Rattle.std.specs.Prelude.{◌≡◌, ◌≤◌, map};
ghost use Rattle.mc_tree.specs.Units.{statement_of, block_item_of, block_from};
ghost use Rattle.mc_tree.specs.Height as tree_height;

use crate::heights::declarations::{declaration, for_start, optional};
use crate::heights::syntax::expression;
use crate::statements::block_item::BlockItem;
use crate::statements::statement::Statement;
use std::cmp::max;

#[cycle(height)]
fn statement(tree: &Statement<'_>) -> u32
    requires { tree_height.height_statement (statement_of tree.now) ≤ 800 }
    ensures { result ≡ tree_height.height_statement (statement_of tree.now) }
{
    match tree {
        Statement::Compound { items, .. } => block(items) + 1,
        Statement::Null { .. }
        | Statement::Goto { .. }
        | Statement::Break { .. }
        | Statement::Continue { .. } => 1,
        Statement::Expression { value, .. } => expression(value) + 1,
        Statement::If { test, chosen, .. } => max(expression(test), statement(chosen)) + 1,
        Statement::IfElse {
            test,
            chosen,
            other,
            ..
        } => { max(expression(test), max(statement(chosen), statement(other))) + 1 }
        Statement::Switch { value, body, .. } | Statement::Case { value, body, .. } => {
            max(expression(value), statement(body)) + 1
        }
        Statement::While { test, body, .. } => max(expression(test), statement(body)) + 1,
        Statement::DoWhile { body, test, .. } => max(statement(body), expression(test)) + 1,
        Statement::For {
            start,
            test,
            step,
            body,
            ..
        } => {
            let head = max(for_start(start), max(optional(test), optional(step)));
            max(head, statement(body)) + 1
        }
        Statement::Default { body, .. } | Statement::Label { body, .. } => statement(body) + 1,
        Statement::Return { value, .. } => optional(value) + 1,
    }
}

#[cycle(height)]
pub(crate) fn block(trees: &[BlockItem<'_>]) -> u32
    requires { tree_height.height_block (block_from (map block_item_of trees.now)) ≤ 800 }
    ensures { result ≡ tree_height.height_block (block_from (map block_item_of trees.now)) }
{
    let mut tallest = 0;
    for tree in trees {
        let part = match tree {
            BlockItem::Local { declaration: local } => declaration(local),
            BlockItem::Statement { statement: one } => statement(one),
        };
        tallest = max(tallest, part);
    }
    tallest
}
