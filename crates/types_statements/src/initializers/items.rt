//! Items of a list.
ghost use Rattle.std.specs.Prelude.{◌≡◌, [], Some, IfOk, map, option_map};
ghost use Rattle.mc_typed.specs.Tree as typed;
ghost use Rattle.mc_typed.specs.Views.{initializer_of};
ghost use Rattle.types_rules.specs.Scopes as scopes;
ghost use Rattle.types_rules.specs.Values.{judged, lift2};
ghost use Rattle.types_rules.specs.Initializers as initializers;
ghost use Rattle.types_scopes.specs.Found.{judged_of};
ghost use Rattle.types_statements.specs.Items.{items_of, then_item, item_then};
ghost use Rattle.types_scopes.specs.steps.Squeezed.{squeezed_part};

use mc_typed::Initializer;
use std::alloc::{AllocError, Global};
use types_scopes::found::Judged;
use types_scopes::joined;
use types_scopes::lists::{unused, with_last};

/// No items. Takes no memory.
pub fn no_items(alloc: Global) -> Judged<Vec<Initializer>>
    ensures { (s : scopes.Scope) → judged_of items_of result s
        ≡ judged [] (Some typed.no_initializers) s }
{
    Judged {
        fault: None,
        value: Some(Vec::new(alloc)),
    }
}

#[tactic(auto, using(crate::proofs::Items::last_item))]
fn items_with(
    list: Option<Vec<Initializer>>,
    one: Option<Initializer>,
) -> Result<Option<Vec<Initializer>>, AllocError>
    ensures { IfOk result (λ r. option_map items_of r
        ≡ lift2 then_item (option_map items_of list) (option_map initializer_of one)) }
{
    match list {
        Some(list) => match one {
            Some(one) => match with_last(list, one) {
                Ok(list) => Ok(Some(list)),
                Err(error) => Err(error),
            },
            None => {
                drop(list);
                Ok(None)
            }
        },
        None => {
            unused(one);
            Ok(None)
        }
    }
}

/// Items, and one more after them.
pub fn more_items(
    list: Judged<Vec<Initializer>>,
    one: Judged<Initializer>,
) -> Result<Judged<Vec<Initializer>>, AllocError>
    ensures { IfOk result (λ r. (s : scopes.Scope) → judged_of items_of r s
        ≡ squeezed_part (item_then (judged_of items_of list s) (judged_of initializer_of one s))) }
{
    let fault = joined::of_two(list.fault, one.fault);
    match items_with(list.value, one.value) {
        Ok(value) => Ok(Judged { fault, value }),
        Err(error) => Err(error),
    }
}
