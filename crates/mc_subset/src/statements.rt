//! The first node outside in statements and blocks.
#![tactic(auto, using(crate::proofs::Order::lists))]

ghost use Rattle.std.specs.Prelude.{◌≡◌, map};
ghost use Rattle.mc_tree.specs.Units.{block_from, block_item_of, statement_of};
ghost use Rattle.mc_tree.specs.Tree as source_tree;
ghost use Rattle.mc_subset.specs.Nodes as nodes;
ghost use Rattle.subset_forms.specs.Order.{or_else};
ghost use Rattle.mc_subset.specs.Forms.{first_outside};

use crate::declarations::{declaration, for_parts, optional};
use crate::expressions::{expression, part};
use crate::rows::{judge, standing_from, statement_form};
use mc_tree::{BlockItem, Statement};
use subset_forms::{Outside, Region, Role, Standing, first_of};

#[cycle(check)]
#[tactic(auto, using(crate::proofs::Order::first_of_statement))]
fn statement(tree: &Statement<'_>, standing: Standing) -> Option<Outside>
    ensures { result ≡ first_outside (nodes.nodes_of_statement standing (statement_of tree.now)) }
{
    let first = judge(statement_form(tree, standing), tree.span());
    first_of(first, parts_of_statement(tree, standing))
}

/// A statement that is a part of another, in its box.
#[cycle(check)]
fn inner(tree: &Box<Statement<'_>>, standing: Standing) -> Option<Outside>
    ensures { let all = nodes.nodes_of_statement standing (statement_of tree.now.value) in
        result ≡ first_outside all }
{
    statement(tree, standing)
}

#[cycle(check)]
#[tactic(auto, using(crate::proofs::Trees::statements))]
fn parts_of_statement(tree: &Statement<'_>, standing: Standing) -> Option<Outside>
    ensures { let all = nodes.nodes_of_statement standing (statement_of tree.now) in
        result ≡ first_outside (nodes.after_first all) }
{
    match tree {
        Statement::Compound { items, .. } => block(items, standing.of_items()),
        Statement::Null { .. }
        | Statement::Goto { .. }
        | Statement::Break { .. }
        | Statement::Continue { .. } => None,
        Statement::Expression { value, .. } => expression(value, Region::Function, Role::Statement),
        Statement::If { test, chosen, .. } => first_of(
            part(test, Region::Function),
            inner(chosen, Standing::Elsewhere),
        ),
        Statement::IfElse {
            test,
            chosen,
            other,
            ..
        } => {
            let first = part(test, Region::Function);
            let second = inner(chosen, Standing::Elsewhere);
            first_of(first, first_of(second, inner(other, Standing::Elsewhere)))
        }
        Statement::Switch { value, body, .. } => {
            first_of(part(value, Region::Function), inner(body, Standing::Body))
        }
        Statement::While { test, body, .. } => first_of(
            part(test, Region::Function),
            inner(body, Standing::Elsewhere),
        ),
        Statement::DoWhile { body, test, .. } => first_of(
            inner(body, Standing::Elsewhere),
            part(test, Region::Function),
        ),
        Statement::For {
            start,
            test,
            step,
            body,
            ..
        } => first_of(
            for_parts(start, test, step),
            inner(body, Standing::Elsewhere),
        ),
        Statement::Case { value, body, .. } => {
            first_of(part(value, Region::Function), inner(body, standing))
        }
        Statement::Default { body, .. } => inner(body, standing),
        Statement::Label { body, .. } => inner(body, Standing::Elsewhere),
        Statement::Return { value, .. } => optional(value, Role::Part),
    }
}

#[cycle(check)]
pub(crate) fn block(trees: &[BlockItem<'_>], standing: Standing) -> Option<Outside>
    ensures { let all = block_from (map block_item_of trees.now) in
        result ≡ first_outside (nodes.nodes_of_block standing all) }
{
    let mut standing = standing;
    for tree in trees {
        if let Some(first) = block_item(tree, standing) {
            return Some(first);
        }
        standing = standing_after(tree, standing);
    }
    None
}

// An item of a block stands before others, so its nodes do too.
#[cycle(check)]
#[tactic(auto, using(crate::proofs::Trees::block_items))]
fn block_item(tree: &BlockItem<'_>, standing: Standing) -> Option<Outside>
    ensures { (rest : source_tree.BlockItems)
        → let next = nodes.standing_after (block_item_of tree.now rest) standing in
        first_outside (nodes.nodes_of_block standing (block_item_of tree.now rest))
        ≡ or_else result (first_outside (nodes.nodes_of_block next rest)) }
{
    match tree {
        BlockItem::Local { declaration: local } => declaration(local, Region::Function, standing),
        BlockItem::Statement { statement: one } => statement(one, standing_from(one, standing)),
    }
}

/// Where what follows an item of a block stands.
fn standing_after(tree: &BlockItem<'_>, standing: Standing) -> Standing
    ensures { (rest : source_tree.BlockItems)
        → result ≡ nodes.standing_after (block_item_of tree.now rest) standing }
{
    match tree {
        BlockItem::Local { .. } => standing,
        BlockItem::Statement { statement: one } => standing_from(one, standing),
    }
}
