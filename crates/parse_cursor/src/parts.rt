//! What a tree that was read may be a part of.
ghost use Rattle.std.specs.Prelude.{◌≡◌, nat_le};
ghost use Rattle.mc_tree.specs.Views.{expression_of};
ghost use Rattle.mc_grammar.specs.Expressions as grammar;

use mc_tree::Expression;

/// Whether the tree is one of a unary expression, which alone may be assigned to (C17 6.5.16).
pub fn is_unary(tree: &Expression<'_>) -> bool
    ensures { result ≡ grammar.is_unary (expression_of tree.now) }
{
    !matches!(
        tree,
        Expression::Cast { .. }
            | Expression::Binary { .. }
            | Expression::Conditional { .. }
            | Expression::Assignment { .. }
            | Expression::Comma { .. }
    )
}

/// Whether a tree of this height is too high to be a part of one of at most `room` levels.
pub fn is_too_high(height: u32, room: u32) -> bool
    ensures { result ≡ nat_le room height }
{
    height >= room
}
