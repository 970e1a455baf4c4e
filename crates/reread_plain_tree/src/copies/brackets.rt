//! Which brackets are a probe's.
ghost use Rattle.std.specs.Prelude.{◌≡◌, map};
ghost use Rattle.mc_tree.specs.Tree as syntax;
ghost use Rattle.mc_tree.specs.Units.{block_from, block_item_of};
ghost use Rattle.reread_plain_tree.specs.Unprobed as spec;

use mc_tree::{BlockItem, Span};

/// Whether brackets start where what they enclose starts.
pub(super) fn is_at(brackets: Span, inner: Span) -> bool
    ensures { result ≡ spec.is_at brackets inner }
{
    brackets.start == inner.start
}

/// Whether braces round this item are a probe's.
fn encloses(item: &BlockItem<'_>, span: Span) -> bool
    ensures { result ≡ spec.is_probes (block_item_of item.now syntax.no_block_items) span }
{
    match item {
        BlockItem::Statement { statement } => is_at(span, statement.span()),
        BlockItem::Local { .. } => false,
    }
}

/// Whether braces round these items are a probe's.
#[tactic(auto, using(crate::proofs::Blocks::several))]
pub(super) fn is_probes(items: &[BlockItem<'_>], span: Span) -> bool
    ensures { result ≡ spec.is_probes (block_from (map block_item_of items.now)) span }
{
    match items {
        [item] => encloses(item, span),
        _ => false,
    }
}
