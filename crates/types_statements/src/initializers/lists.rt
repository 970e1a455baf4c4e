//! Lists as initializers (C17 6.7.9).
ghost use Rattle.std.specs.Prelude.{◌≡◌, [], Some, IfOk, option_copied, option_map, option_and_then};
ghost use Rattle.mc_typed.specs.Tree as typed;
ghost use Rattle.mc_typed.specs.Views.{expression_of, initializer_of};
ghost use Rattle.types_rules.specs.Types.{cells_of};
ghost use Rattle.types_rules.specs.Values.{judged};
ghost use Rattle.types_rules.specs.Initializers as initializer_rules;
ghost use Rattle.types_scopes.specs.Types.{type_of};
ghost use Rattle.types_scopes.specs.Views.{scope_of};
ghost use Rattle.types_scopes.specs.Found.{found_of, judged_of};
ghost use Rattle.types_statements.specs.Initializers.{target_of};
ghost use Rattle.types_statements.specs.Items.{item_then, items_of};
ghost use Rattle.types_scopes.specs.steps.Squeezed.{squeezed_part};

use crate::initializers::items::{more_items, no_items};
use crate::initializers::singles::single_initializer;
use crate::initializers::target::{Target, fails_count, target_for};
use crate::values::only;
use mc_typed::{Expression, Initializer};
use std::alloc::{AllocError, Global};
use types_faults::{FaultKind, or_fault};
use types_scopes::found::{Found, Judged, number_in};
use types_scopes::lists::unused;
use types_scopes::values::is_zero_found;
use types_scopes::{CType, Scope, cells};

fn list_of(scope: &Scope<'_>, of: &CType, items: Vec<Initializer>) -> Initializer
    ensures { initializer_of result ≡ typed.ListInitializer (items_of items)
        (cells_of (scope_of scope.now).structures (type_of of.now)) }
{
    let cells = cells(&scope.structures, of);
    Initializer::List { items, cells }
}

#[tactic(auto, using(crate::proofs::Items::only_initializer))]
fn list_value(
    scope: &Scope<'_>,
    of: Option<&CType>,
    target: Target<'_, '_>,
    items: Option<Vec<Initializer>>,
) -> Option<Initializer>
    ensures { option_map initializer_of result
        ≡ option_and_then (initializer_rules.list_value (scope_of scope.now).structures
        (option_map type_of (option_copied of.entry)) (target_of target.entry))
        (option_map items_of items) }
{
    match items {
        Some(items) => match of {
            Some(of) => match target {
                Target::Scalar(_) => only(items),
                Target::Array { .. } => Some(list_of(scope, of, items)),
                Target::Structure { .. } => Some(list_of(scope, of, items)),
                Target::Missing => {
                    drop(items);
                    None
                }
            },
            None => {
                drop(items);
                None
            }
        },
        None => None,
    }
}

/// A list of so many items that starts here, for an object of this type. Takes no memory.
pub fn list_initializer(
    scope: &Scope<'_>,
    of: Option<&CType>,
    at: u32,
    count: usize,
    items: Judged<Vec<Initializer>>,
) -> Judged<Initializer>
    ensures { judged_of initializer_of result (scope_of scope.now)
        ≡ squeezed_part (initializer_rules.list_judged
        (option_map type_of (option_copied of.entry)) at count
        (judged_of items_of items (scope_of scope.now))) }
{
    let target = target_for(scope, of);
    let wrong = fails_count(target, count);
    let fault = or_fault(items.fault, wrong, FaultKind::Mismatch, at);
    let value = list_value(scope, of, target, items.value);
    Judged { fault, value }
}

// ---- `{0}`

fn zero_of(scope: &Scope<'_>, of: &CType, value: Expression) -> Initializer
    ensures { initializer_of result ≡ typed.ZeroInitializer (expression_of value)
        (cells_of (scope_of scope.now).structures (type_of of.now)) }
{
    let cells = cells(&scope.structures, of);
    Initializer::Zero { value, cells }
}

fn zero_value(
    scope: &Scope<'_>,
    of: Option<&CType>,
    value: Option<Expression>,
) -> Option<Initializer>
    ensures { option_map initializer_of result
        ≡ initializer_rules.zero_value (scope_of scope.now).structures
        (option_map type_of (option_copied of.entry)) (option_map expression_of value) }
{
    match of {
        Some(of) => match value {
            Some(value) => Some(zero_of(scope, of, value)),
            None => None,
        },
        None => {
            unused(value);
            None
        }
    }
}

// The list of an integer constant expression of value 0, for an object of this type.
#[tactic(auto, using(types_scopes::proofs::Squeezed::least_listed))]
fn zero_initializer(scope: &Scope<'_>, of: Option<&CType>, only: Found) -> Judged<Initializer>
    ensures { judged_of initializer_of result (scope_of scope.now)
        ≡ squeezed_part (initializer_rules.zero_judged (option_map type_of (option_copied of.entry))
        (Some (found_of only (scope_of scope.now))) (scope_of scope.now)) }
{
    let fault = only.fault;
    let value = zero_value(scope, of, number_in(only.value));
    Judged { fault, value }
}

// ---- a list of one expression

// A list of this item.
fn list_of_one(
    alloc: Global,
    scope: &Scope<'_>,
    of: Option<&CType>,
    at: u32,
    one: Judged<Initializer>,
) -> Result<Judged<Initializer>, AllocError>
    ensures { IfOk result (λ r. judged_of initializer_of r (scope_of scope.now)
        ≡ squeezed_part (initializer_rules.list_judged
        (option_map type_of (option_copied of.entry)) at 1
        (squeezed_part (item_then (judged [] (Some typed.no_initializers) (scope_of scope.now))
        (judged_of initializer_of one (scope_of scope.now)))))) }
{
    match more_items(no_items(alloc), one) {
        Ok(items) => Ok(list_initializer(scope, of, at, 1, items)),
        Err(error) => Err(error),
    }
}

// As a list with an item of this type, whatever the value of the expression.
fn list_of_expression(
    alloc: Global,
    is_static: bool,
    scope: &Scope<'_>,
    of: Option<&CType>,
    item: Option<&CType>,
    at: u32,
    start: u32,
    found: Found,
) -> Result<Judged<Initializer>, AllocError>
    ensures { IfOk result (λ r. judged_of initializer_of r (scope_of scope.now)
        ≡ squeezed_part (initializer_rules.list_judged
        (option_map type_of (option_copied of.entry)) at 1
        (initializer_rules.items_judged
        (initializer_rules.single_judged is_static (option_map type_of (option_copied item.entry))
        start (found_of found (scope_of scope.now)))
        (judged [] (Some typed.no_initializers) (scope_of scope.now))))) }
{
    match single_initializer(alloc, is_static, scope, item, start, found) {
        Ok(one) => list_of_one(alloc, scope, of, at, one),
        Err(error) => Err(error),
    }
}

/// A list that starts here with one expression, which starts at `start`, for an object of this
/// type: `item` is the type of what its item is for.
pub fn braced_expression(
    alloc: Global,
    is_static: bool,
    scope: &Scope<'_>,
    of: Option<&CType>,
    item: Option<&CType>,
    at: u32,
    start: u32,
    found: Found,
) -> Result<Judged<Initializer>, AllocError>
    ensures { IfOk result (λ r. judged_of initializer_of r (scope_of scope.now)
        ≡ squeezed_part (initializer_rules.braced_judged
        (option_map type_of (option_copied of.entry)) at 1
        (Some (found_of found (scope_of scope.now)))
        (initializer_rules.items_judged
        (initializer_rules.single_judged is_static (option_map type_of (option_copied item.entry))
        start (found_of found (scope_of scope.now)))
        (judged [] (Some typed.no_initializers) (scope_of scope.now))) (scope_of scope.now))) }
{
    let zero = is_zero_found(&found);
    if zero {
        Ok(zero_initializer(scope, of, found))
    } else {
        list_of_expression(alloc, is_static, scope, of, item, at, start, found)
    }
}
