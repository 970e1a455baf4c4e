//! The height of trees.
ghost use Rattle.std.specs.Prelude.{◌≡◌, ◌≤◌, map};
ghost use Rattle.mc_tree.specs.Units.{item_of, items_of};
ghost use Rattle.mc_tree.specs.Height.{height_item, height_unit};

mod declarations;
mod statements;
mod syntax;

use crate::units::item::Item;
use crate::units::unit::Unit;
use std::cmp::max;

/// How many levels a source nests: each expression, statement and initializer counts one, and so do
/// parentheses round an expression (those of a call, a cast, a test or a parameter list do not) and
/// each list of members or enumerators. Declarations count none, so `int a;` has a height of 0. No
/// height is over 800. Takes no memory.
pub fn height(unit: &Unit<'_>) -> u32
    ensures { result ≡ height_unit (items_of unit.now.items.items) }
{
    let mut tallest = 0;
    for item in &unit.items {
        tallest = max(tallest, external_declaration(item));
    }
    tallest
}

fn external_declaration(tree: &Item<'_>) -> u32
    requires { height_item (item_of tree.now) ≤ 800 }
    ensures { result ≡ height_item (item_of tree.now) }
{
    match tree {
        Item::Declared { declaration } => declarations::declaration(declaration),
        Item::Defined {
            specifiers,
            declarator,
            body,
            ..
        } => {
            let head = max(
                syntax::specifiers(specifiers),
                syntax::declarator(declarator),
            );
            max(head, statements::block(body) + 1)
        }
    }
}
