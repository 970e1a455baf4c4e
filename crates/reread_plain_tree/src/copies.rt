//! Copies of trees without the brackets of probes. The recursion goes by values on the heap and
//! makes each node in a function of its own, so that its frames stay small.
ghost use Rattle.std.specs.Prelude.{◌≡◌, IfOk};
ghost use Rattle.mc_tree.specs.Units.{item_of, items_of};
ghost use Rattle.reread_plain_tree.specs.Unprobed.{unprobed_item, unprobed_unit};

mod brackets;
mod declarations;
mod expressions;
mod heap;
mod nodes;
mod statements;

use crate::copies::declarations::declaration;
use crate::copies::expressions::{declarator, specifiers};
use crate::copies::statements::block;
use mc_tree::{Item, Unit};
use std::alloc::{AllocError, Global};

fn item<'a>(alloc: Global, tree: &Item<'a>) -> Result<Item<'a>, AllocError>
    ensures { IfOk result (λ c. item_of c ≡ unprobed_item (item_of tree.now)) }
{
    match tree {
        Item::Declared { declaration: whole } => {
            let declaration = declaration(alloc, whole)?;
            Ok(Item::Declared { declaration })
        }
        Item::Defined {
            specifiers: words,
            declarator: declared,
            body: items,
            span,
        } => {
            let specifiers = specifiers(alloc, words)?;
            let declarator = declarator(alloc, declared)?;
            let body = block(alloc, items)?;
            Ok(Item::Defined {
                specifiers,
                declarator,
                body,
                span: *span,
            })
        }
    }
}

fn all_items<'a>(alloc: Global, trees: &[Item<'a>]) -> Result<Vec<Item<'a>>, AllocError>
    ensures { IfOk result (λ c. items_of c.items ≡ unprobed_unit (items_of trees.now)) }
{
    let mut copies = Vec::with_capacity(alloc, trees.len())?;
    for tree in trees {
        let copy = item(alloc, tree)?;
        copies.push(copy)?;
    }
    Ok(copies)
}

/// The tree of an instrumented text without the brackets of its probes: where brackets start with
/// what they enclose, that stands in their place.
#[tactic(auto, using(crate::proofs::Heights::unit_low, crate::proofs::Lengths::unit_short))]
pub fn unprobed<'a>(alloc: Global, unit: &Unit<'a>) -> Result<Unit<'a>, AllocError>
    ensures { IfOk result (λ copy. items_of copy.items.items
        ≡ unprobed_unit (items_of unit.now.items.items)) }
{
    let items = all_items(alloc, &unit.items)?;
    Ok(Unit { items })
}
