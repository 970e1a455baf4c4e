//! Names (C17 6.5.1).
ghost use Rattle.std.specs.Prelude.{◌≡◌, IfOk, Some, option_copied, option_map, option_and_then};
ghost use Rattle.mc_value.specs.declared.int_type.IntType.TheVariants as IntType;
ghost use Rattle.mc_typed.specs.Tree as typed;
ghost use Rattle.mc_typed.specs.Views.{place_of};
ghost use Rattle.types_faults.specs.Faults.{least_of};
ghost use Rattle.types_rules.specs.Values as values;
ghost use Rattle.types_rules.specs.Scopes as in_scope;
ghost use Rattle.types_rules.specs.Expressions as expressions;
ghost use Rattle.types_scopes.specs.Types.{type_of};
ghost use Rattle.types_scopes.specs.Views as scopes;
ghost use Rattle.types_scopes.specs.Found.{found_of, value_of};
ghost use Rattle.types_scopes.specs.steps.Squeezed.{squeezed};
ghost use Rattle.types_expressions.specs.steps.Names.{named_found};

use crate::operands::found;
use mc_typed::{Expression, Place, Span};
use mc_value::IntType;
use std::alloc::AllocError;
use types_faults::{Fault, FaultKind};
use types_scopes::found::Found;
use types_scopes::value::Value;
use types_scopes::{CType, Meaning};

fn is_object(meaning: Option<&Meaning>) -> bool
    ensures { result ≡ expressions.is_object
        (option_map scopes.meaning_of (option_copied meaning.entry)) }
{
    match meaning {
        Some(meaning) => match meaning {
            Meaning::Automatic { .. } | Meaning::Static { .. } | Meaning::Borrowed { .. } => true,
            Meaning::Constant { .. } | Meaning::Function { .. } | Meaning::Typedef { .. } => false,
        },
        None => true,
    }
}

fn is_enumerator(meaning: Option<&Meaning>) -> bool
    ensures { result
        ≡ expressions.is_enumerator (option_map scopes.meaning_of (option_copied meaning.entry)) }
{
    match meaning {
        Some(meaning) => match meaning {
            Meaning::Constant { .. } => true,
            Meaning::Automatic { .. }
            | Meaning::Static { .. }
            | Meaning::Borrowed { .. }
            | Meaning::Function { .. }
            | Meaning::Typedef { .. } => false,
        },
        None => true,
    }
}

fn name_fault(meaning: Option<&Meaning>, at: u32) -> Option<Fault>
    ensures { result
        ≡ least_of (expressions.name_faults
        (option_map scopes.meaning_of (option_copied meaning.entry)) at) }
{
    match meaning {
        Some(meaning) => match meaning {
            Meaning::Typedef { .. } => Some(Fault {
                kind: FaultKind::Mismatch,
                at,
            }),
            Meaning::Automatic { .. }
            | Meaning::Static { .. }
            | Meaning::Borrowed { .. }
            | Meaning::Constant { .. }
            | Meaning::Function { .. } => None,
        },
        None => Some(Fault {
            kind: FaultKind::Undeclared,
            at,
        }),
    }
}

// An object with its type, where that is known.
fn stored(place: Place, of: &Option<CType>) -> Result<Option<Value>, AllocError>
    ensures { IfOk result (λ r. option_map value_of r
        ≡ option_map (values.Stored (place_of place)) (option_map type_of of.now)) }
{
    match of {
        Some(of) => match of.try_clone() {
            Ok(of) => Ok(Some(Value::Stored(place, of))),
            Err(error) => {
                drop(place);
                Err(error)
            }
        },
        None => {
            drop(place);
            Ok(None)
        }
    }
}

// The array that an array parameter names.
fn borrowed(array: u32, element: &CType, span: Span) -> Result<Option<Value>, AllocError>
    ensures { IfOk result (λ r. option_map value_of r
        ≡ Some (values.Borrowed array (type_of element.now) span)) }
{
    match element.try_clone() {
        Ok(element) => Ok(Some(Value::Borrowed {
            array,
            element,
            span,
        })),
        Err(error) => Err(error),
    }
}

// An enumeration constant, where its value is known.
fn enumerator(value: Option<i128>, span: Span) -> Option<Value>
    ensures { option_map value_of result
        ≡ option_map (λ w. values.Number (typed.Constant w IntType.Int span)) value }
{
    match value {
        Some(value) => Some(Value::Number(Expression::Constant {
            value,
            of: IntType::Int,
            span,
        })),
        None => None,
    }
}

fn value_of_name(span: Span, meaning: &Meaning) -> Result<Option<Value>, AllocError>
    ensures { IfOk result (λ r. option_map value_of r
        ≡ expressions.value_of_name span (scopes.meaning_of meaning.now)) }
{
    match meaning {
        Meaning::Automatic { slot, of } => stored(Place::Local { slot: *slot, span }, of),
        Meaning::Static { slot, of } => stored(Place::Static { slot: *slot, span }, of),
        Meaning::Borrowed { array, element } => borrowed(*array, element, span),
        Meaning::Constant { value } => Ok(enumerator(*value, span)),
        Meaning::Function { .. } => Ok(Some(Value::Designator)),
        Meaning::Typedef { .. } => Ok(None),
    }
}

fn value_named(span: Span, meaning: Option<&Meaning>) -> Result<Option<Value>, AllocError>
    ensures { IfOk result (λ r. option_map value_of r
        ≡ option_and_then (expressions.value_of_name span)
        (option_map scopes.meaning_of (option_copied meaning.entry))) }
{
    match meaning {
        Some(meaning) => value_of_name(span, meaning),
        None => Ok(None),
    }
}

/// A name that stands here, by what it means.
pub fn name(span: Span, meaning: Option<&Meaning>) -> Result<Found, AllocError>
    ensures { IfOk result (λ r. (s : in_scope.Scope) → found_of r s
        ≡ squeezed (named_found span
        (option_map scopes.meaning_of (option_copied meaning.entry)) s)) }
{
    let fault = name_fault(meaning, span.start);
    let value = value_named(span, meaning);
    found(fault, value, is_object(meaning), is_enumerator(meaning))
}
