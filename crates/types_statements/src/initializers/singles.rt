//! Expressions as initializers (C17 6.7.9p4, p11, p13).
ghost use Rattle.std.specs.Prelude.{◌≡◌, ◌++◌, Some, IfOk, option_copied, option_map, option_and_then};
ghost use Rattle.mc_typed.specs.Tree as typed;
ghost use Rattle.mc_typed.specs.Views.{expression_of, structure_of, initializer_of};
ghost use Rattle.types_faults.specs.Faults.{least_of};
ghost use Rattle.types_rules.specs.Scopes as scopes;
ghost use Rattle.types_rules.specs.Types.{cells_of};
ghost use Rattle.types_rules.specs.Values as judged;
ghost use Rattle.types_rules.specs.Expressions as expressions;
ghost use Rattle.types_rules.specs.Initializers as initializer_rules;
ghost use Rattle.types_scopes.specs.Types.{base_of, type_of};
ghost use Rattle.types_scopes.specs.Views.{scope_of};
ghost use Rattle.types_scopes.specs.Found.{found_of, judged_of, kind_of, value_of};
ghost use Rattle.types_statements.specs.Initializers.{target_of};
ghost use Rattle.types_scopes.specs.steps.Squeezed.{squeezed_part};

use crate::initializers::target::{Target, target_for};
use mc_typed::{Expression, Initializer, Structure};
use mc_value::IntType;
use std::alloc::{AllocError, Global};
use types_faults::{Fault, FaultKind, after, fault_where, lesser};
use types_scopes::conversions::convert_to;
use types_scopes::found::{Found, Judged, kind_found};
use types_scopes::kind::{Kind, fails_integer, is_kind};
use types_scopes::lists::unused;
use types_scopes::value::Value;
use types_scopes::values::fault_of_constant;
use types_scopes::{Base, CType, Scope, cells};

fn fails_kind(number: usize, kind: Option<Kind<'_>>) -> bool
    ensures { result ≡ judged.fails (initializer_rules.is_kind number)
        (option_map kind_of kind.entry) }
{
    match kind {
        Some(kind) => !is_kind(number, kind),
        None => false,
    }
}

// The fault of an expression of this kind, for this target.
fn item_fault(
    is_static: bool,
    target: Target<'_, '_>,
    at: u32,
    kind: Option<Kind<'_>>,
) -> Option<Fault>
    ensures { result ≡ least_of
        (initializer_rules.item_faults is_static (target_of target.entry) at
        (option_map kind_of kind.entry)) }
{
    match target {
        Target::Missing => None,
        Target::Scalar(_) => fault_where(fails_integer(kind), FaultKind::Mismatch, at),
        Target::Array { .. } => Some(Fault {
            kind: FaultKind::Mismatch,
            at,
        }),
        Target::Structure { number, .. } => fault_where(
            is_static || fails_kind(number, kind),
            FaultKind::Mismatch,
            at,
        ),
    }
}

fn number_value(
    alloc: Global,
    to: IntType,
    number: Option<Expression>,
) -> Result<Option<Initializer>, AllocError>
    ensures { IfOk result (λ r. option_map initializer_of r
        ≡ option_map (λ e. typed.NumberInitializer (expressions.convert_to to e))
        (option_map expression_of number)) }
{
    match number {
        Some(number) => {
            match convert_to(alloc, to, number) {
                Ok(value) => Ok(Some(Initializer::Number { value })),
                Err(error) => Err(error),
            }
        }
        None => Ok(None),
    }
}

fn scalar_value(alloc: Global, of: &CType, value: Value) -> Result<Option<Initializer>, AllocError>
    ensures { IfOk result (λ r. option_map initializer_of r
        ≡ initializer_rules.scalar_value (type_of of.now).base (value_of value)) }
{
    match of.base {
        Base::Integer(to) => number_value(alloc, to, value.into_number()),
        Base::Void => {
            drop(value);
            Ok(None)
        }
        Base::Tagged(_) => {
            drop(value);
            Ok(None)
        }
    }
}

fn structure_value(scope: &Scope<'_>, of: &CType, value: Option<Structure>) -> Option<Initializer>
    ensures { option_map initializer_of result
        ≡ option_map
        (λ w. typed.StructureInitializer w
        (cells_of (scope_of scope.now).structures (type_of of.now)))
        (option_map structure_of value) }
{
    match value {
        Some(value) => {
            let cells = cells(&scope.structures, of);
            Some(Initializer::Structure { value, cells })
        }
        None => None,
    }
}

fn item_value(
    alloc: Global,
    scope: &Scope<'_>,
    of: Option<&CType>,
    target: Target<'_, '_>,
    value: Option<Value>,
) -> Result<Option<Initializer>, AllocError>
    ensures { IfOk result (λ r. option_map initializer_of r
        ≡ option_and_then (initializer_rules.item_value (scope_of scope.now).structures
        (option_map type_of (option_copied of.entry)) (target_of target.entry))
        (option_map value_of value)) }
{
    match value {
        Some(value) => match of {
            Some(of) => match target {
                Target::Scalar(scalar) => scalar_value(alloc, scalar, value),
                Target::Structure { number, .. } => {
                    Ok(structure_value(scope, of, value.into_structure(number)))
                }
                Target::Missing => {
                    drop(value);
                    Ok(None)
                }
                Target::Array { .. } => {
                    drop(value);
                    Ok(None)
                }
            },
            None => {
                drop(value);
                Ok(None)
            }
        },
        None => Ok(None),
    }
}

// An object with static storage duration takes integer constant expressions.
fn static_fault(is_static: bool, at: u32, found: &Found) -> Option<Fault>
    ensures { (s : scopes.Scope) → result ≡ least_of (initializer_rules.static_faults is_static at
        found.now.constant (judged.number_found (found_of found.now s))) }
{
    if is_static {
        fault_of_constant(at, found)
    } else {
        None
    }
}

// The fault of the initializer itself.
fn own_fault(is_static: bool, target: Target<'_, '_>, at: u32, found: &Found) -> Option<Fault>
    ensures { (s : scopes.Scope) → result ≡ least_of
        (initializer_rules.item_faults is_static (target_of target.entry) at
        (judged.kind_found (found_of found.now s))
        ++ initializer_rules.static_faults is_static at found.now.constant
        (judged.number_found (found_of found.now s))) }
{
    let item = item_fault(is_static, target, at, kind_found(&found.value));
    let constant = static_fault(is_static, at, found);
    lesser(item, constant)
}

/// An expression that starts here, for an object of this type.
pub fn single_initializer(
    alloc: Global,
    is_static: bool,
    scope: &Scope<'_>,
    of: Option<&CType>,
    at: u32,
    found: Found,
) -> Result<Judged<Initializer>, AllocError>
    ensures { IfOk result (λ r. judged_of initializer_of r (scope_of scope.now)
        ≡ squeezed_part (initializer_rules.single_judged is_static
        (option_map type_of (option_copied of.entry)) at
        (found_of found (scope_of scope.now)))) }
{
    let target = target_for(scope, of);
    let own = own_fault(is_static, target, at, &found);
    let fault = after(found.fault, own);
    match item_value(alloc, scope, of, target, found.value) {
        Ok(value) => Ok(Judged { fault, value }),
        Err(error) => Err(error),
    }
}
