//! The first node outside in a whole source.
#![tactic(auto, using(crate::proofs::Order::lists))]

ghost use Rattle.std.specs.Prelude.{◌≡◌, map};
ghost use Rattle.mc_tree.specs.Units.{item_of, items_of};
ghost use Rattle.mc_subset.specs.Nodes.{nodes_of_item, nodes_of_unit};
ghost use Rattle.mc_subset.specs.Forms.{accepted_unless, first_outside};

use crate::declarations::declaration;
use crate::expressions::{declarator, specifiers};
use crate::rows::has_extern;
use crate::statements::block;
use mc_tree::{Item, Unit};
use subset_forms::{Outside, Region, Standing, first_of};

/// Accepts a tree without a node outside, and else gives the first one in preorder: a node comes
/// before its parts, and parts come in the order of the text. Takes no memory.
pub fn check(unit: &Unit<'_>) -> Result<(), Outside>
    ensures { let nodes = nodes_of_unit (items_of unit.now.items.items) in
        result ≡ accepted_unless (first_outside nodes) }
{
    match items(&unit.items) {
        None => Ok(()),
        Some(first) => Err(first),
    }
}

#[tactic(auto, using(crate::proofs::Order::all_lists))]
fn items(trees: &[Item<'_>]) -> Option<Outside>
    ensures { result ≡ first_outside (nodes_of_unit (items_of trees.now)) }
{
    let mut found = None;
    for tree in trees {
        found = first_of(found, item(tree));
    }
    found
}

fn item(tree: &Item<'_>) -> Option<Outside>
    ensures { result ≡ first_outside (nodes_of_item (item_of tree.now)) }
{
    match tree {
        Item::Declared { declaration: one } => declaration(one, Region::File, Standing::Elsewhere),
        Item::Defined {
            specifiers: words,
            declarator: declared,
            body,
            ..
        } => {
            let first = specifiers(words, Region::Function);
            let external = has_extern(words);
            let second = declarator(declared, Region::Function, false, external);
            first_of(first, first_of(second, block(body, Standing::Elsewhere)))
        }
    }
}
