//! What a probe has to know of the statement that it counts.
ghost use Rattle.std.specs.Prelude.{◌≡◌, ◌||◌, map};
ghost use Rattle.mc_tree.specs.Tree.{BlockItems};
ghost use Rattle.mc_tree.specs.Units.{block_from, block_item_of, declaration_of, statement_of};
ghost use Rattle.reread_probes.specs.Statements as spec;

use crate::declarations::is_counted_local;
use mc_span::Span;
use mc_tree::{BlockItem, Declaration, Statement};

/// A counted statement: its place, and whether it is a `switch` without `default`.
#[derive(Clone, Copy, Debug)]
pub struct Counted {
    pub span: Span,
    pub lacks_default: bool,
}

/// Whether `default` is among the labels of a statement.
fn is_default(tree: &Statement<'_>) -> bool
    ensures { result ≡ spec.is_default (statement_of tree.now) }
{
    match tree {
        Statement::Default { .. } => true,
        Statement::Case { body, .. } => is_default(body),
        Statement::Label { body, .. } => is_default(body),
        _ => false,
    }
}

// An item of a block stands before others.
#[tactic(auto, using(crate::proofs::Trees::block_items))]
fn is_default_item(tree: &BlockItem<'_>) -> bool
    ensures { (rest : BlockItems) → spec.default_among (block_item_of tree.now rest)
        ≡ (result || spec.default_among rest) }
{
    match tree {
        BlockItem::Local { .. } => false,
        BlockItem::Statement { statement } => is_default(statement),
    }
}

fn default_among(trees: &[BlockItem<'_>]) -> bool
    ensures { result ≡ spec.default_among (block_from (map block_item_of trees.now)) }
{
    for tree in trees {
        if is_default_item(tree) {
            return true;
        }
    }
    false
}

/// Whether the body of a `switch` has a `default` directly.
fn has_default(tree: &Statement<'_>) -> bool
    ensures { result ≡ spec.has_default (statement_of tree.now) }
{
    match tree {
        Statement::Compound { items, .. } => default_among(items),
        _ => is_default(tree),
    }
}

fn lacks_default(tree: &Statement<'_>) -> bool
    ensures { result ≡ spec.lacks_default (statement_of tree.now) }
{
    match tree {
        Statement::Switch { body, .. } => !has_default(body),
        _ => false,
    }
}

/// Whether a statement is one that may be counted: none that is compound, and no label.
fn is_counted(tree: &Statement<'_>) -> bool
    ensures { result ≡ spec.is_counted (statement_of tree.now) }
{
    !matches!(
        tree,
        Statement::Compound { .. }
            | Statement::Case { .. }
            | Statement::Default { .. }
            | Statement::Label { .. }
    )
}

fn counted_statement(tree: &Statement<'_>) -> Option<Counted>
    ensures { result ≡ spec.counted (statement_of tree.now) }
{
    if is_counted(tree) {
        Some(Counted {
            span: tree.span(),
            lacks_default: lacks_default(tree),
        })
    } else {
        None
    }
}

/// A counted declaration at the front of a block that is read as a probe's braces.
fn counted_local(tree: &Declaration<'_>) -> Option<Counted>
    ensures { result ≡ spec.counted_local (declaration_of tree.now) }
{
    if is_counted_local(tree) {
        Some(Counted {
            span: tree.span,
            lacks_default: false,
        })
    } else {
        None
    }
}

/// Whether a block has no items.
#[tactic(auto, using(crate::proofs::Trees::blocks))]
fn is_empty(trees: &[BlockItem<'_>]) -> bool
    ensures { result ≡ spec.is_empty (block_from (map block_item_of trees.now)) }
{
    match trees {
        [] => true,
        [_, ..] => false,
    }
}

// An item of a block stands before others; `last` says that there are none.
#[tactic(auto, using(crate::proofs::Trees::block_items))]
fn counted_item(tree: &BlockItem<'_>, last: bool) -> Option<Counted>
    ensures { (rest : BlockItems) → spec.is_empty rest ≡ last
        → spec.counted_first (block_item_of tree.now rest) ≡ result }
{
    match tree {
        BlockItem::Local { declaration } => counted_local(declaration),
        BlockItem::Statement { statement } if last => counted_statement(statement),
        BlockItem::Statement { .. } => None,
    }
}

/// What the braces of a probe enclose.
pub(crate) fn counted_first(trees: &[BlockItem<'_>]) -> Option<Counted>
    ensures { result ≡ spec.counted_first (block_from (map block_item_of trees.now)) }
{
    match trees {
        [] => None,
        [tree, later @ ..] => counted_item(tree, is_empty(later)),
    }
}

// An item of a block stands before others.
#[tactic(auto, using(crate::proofs::Trees::block_items))]
fn item_starts_at(at: u32, tree: &BlockItem<'_>) -> bool
    ensures { (rest : BlockItems) → spec.starts_at at (block_item_of tree.now rest) ≡ result }
{
    match tree {
        BlockItem::Local { declaration } => declaration.span.start == at,
        BlockItem::Statement { statement } => statement.span().start == at,
    }
}

/// Whether the first of these items starts there.
pub(crate) fn starts_at(at: u32, trees: &[BlockItem<'_>]) -> bool
    ensures { result ≡ spec.starts_at at (block_from (map block_item_of trees.now)) }
{
    match trees {
        [] => false,
        [tree, ..] => item_starts_at(at, tree),
    }
}
