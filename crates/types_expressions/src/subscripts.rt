//! Elements of arrays (C17 6.5.2.1).
ghost use Rattle.std.specs.Prelude.{◌≡◌, ◌++◌, IfOk, Some, map, option_map};
ghost use Rattle.mc_typed.specs.Tree as typed;
ghost use Rattle.mc_typed.specs.Views.{expression_of, place_of};
ghost use Rattle.types_faults.specs.Faults.{least_of};
ghost use Rattle.types_faults.specs.Kept.{listed};
ghost use Rattle.types_rules.specs.Types as types;
ghost use Rattle.types_rules.specs.Values as values;
ghost use Rattle.types_rules.specs.Expressions as expressions;
ghost use Rattle.types_scopes.specs.Types.{type_of};
ghost use Rattle.types_scopes.specs.Views.{scope_of, structure_of};
ghost use Rattle.types_scopes.specs.Found.{found_of, value_of};
ghost use Rattle.types_scopes.specs.steps.Squeezed.{squeezed};

use crate::operands::{boxed, found};
use mc_typed::{Expression, Place, Span};
use std::alloc::{AllocError, Global};
use types_faults::{Fault, FaultKind, two_or_fault};
use types_scopes::found::{Found, fails_integer, kind_found, number_in};
use types_scopes::kind::fails_array;
use types_scopes::lists::unused;
use types_scopes::parts::ValueParts;
use types_scopes::value::Value;
use types_scopes::{CType, Scope, Structure, cells};

// The length of an array, and the type of its elements, whose lengths are these.
fn elements(
    alloc: Global,
    of: &CType,
    length: u32,
    rest: &[u32],
) -> Result<(u32, CType), AllocError>
    ensures length { IfOk result (λ r. r.0 ≡ length) }
    ensures element { IfOk result (λ r. type_of r.1
        ≡ record (type_of of.now) { lengths = rest.now }) }
{
    let mut lengths = Vec::new(alloc);
    match lengths.extend_from_slice(rest) {
        Ok(()) => {
            let element = CType {
                base: of.base,
                is_const: of.is_const,
                lengths,
            };
            Ok((length, element))
        }
        Err(error) => {
            drop(lengths);
            Err(error)
        }
    }
}

// The place of an element of an array with so many elements.
fn item(
    alloc: Global,
    array: Place,
    length: u32,
    stride: u32,
    index: Expression,
    span: Span,
) -> Result<Place, AllocError>
    ensures { IfOk result (λ r. place_of r
        ≡ typed.Item (place_of array) length stride (expression_of index) span) }
{
    match boxed(alloc, array) {
        Ok(array) => match boxed(alloc, index) {
            Ok(index) => Ok(Place::Item {
                array,
                length,
                stride,
                index,
                span,
            }),
            Err(error) => {
                drop(array);
                Err(error)
            }
        },
        Err(error) => {
            drop(index);
            Err(error)
        }
    }
}

// The same as an object of its type.
fn item_of_type(
    alloc: Global,
    structures: &[Structure<'_>],
    array: Place,
    length: u32,
    element: CType,
    index: Expression,
    span: Span,
) -> Result<Option<Value>, AllocError>
    ensures { IfOk result (λ r. option_map value_of r
        ≡ Some (values.Stored (typed.Item (place_of array) length
        (types.cells_of (map structure_of structures.now) (type_of element))
        (expression_of index) span) (type_of element))) }
{
    let stride = cells(structures, &element);
    match item(alloc, array, length, stride, index, span) {
        Ok(place) => Ok(Some(Value::Stored(place, element))),
        Err(error) => {
            drop(element);
            Err(error)
        }
    }
}

fn stored_element(
    alloc: Global,
    structures: &[Structure<'_>],
    place: Place,
    of: &CType,
    index: Expression,
    span: Span,
) -> Result<Option<Value>, AllocError>
    ensures { IfOk result (λ r. option_map value_of r
        ≡ expressions.stored_element (map structure_of structures.now) (place_of place)
        (type_of of.now)
        of.now.lengths.items (expression_of index) span) }
{
    match of.lengths.as_slice() {
        [length, rest @ ..] => match elements(alloc, of, *length, rest) {
            Ok((length, element)) => {
                item_of_type(alloc, structures, place, length, element, index, span)
            }
            Err(error) => {
                drop(place);
                drop(index);
                Err(error)
            }
        },
        _ => {
            drop(place);
            drop(index);
            Ok(None)
        }
    }
}

// An element of the array that an array parameter names.
fn borrowed_element(
    alloc: Global,
    structures: &[Structure<'_>],
    array: u32,
    element: CType,
    index: Expression,
    span: Span,
) -> Result<Option<Value>, AllocError>
    ensures { IfOk result (λ r. option_map value_of r
        ≡ Some (values.Stored (typed.Parameter array
        (types.cells_of (map structure_of structures.now) (type_of element))
        (expression_of index) span) (type_of element))) }
{
    let stride = cells(structures, &element);
    match boxed(alloc, index) {
        Ok(index) => {
            let place = Place::Parameter {
                array,
                stride,
                index,
                span,
            };
            Ok(Some(Value::Stored(place, element)))
        }
        Err(error) => {
            drop(element);
            Err(error)
        }
    }
}

fn index_value(
    alloc: Global,
    structures: &[Structure<'_>],
    span: Span,
    array: Option<Value>,
    index: Option<Expression>,
) -> Result<Option<Value>, AllocError>
    ensures { IfOk result (λ r. option_map value_of r
        ≡ expressions.index_value (map structure_of structures.now) span (option_map value_of array)
        (option_map expression_of index)) }
{
    let Some(array) = array else {
        unused(index);
        return Ok(None);
    };
    let Some(index) = index else {
        drop(array);
        return Ok(None);
    };
    match array.into_parts() {
        ValueParts::Stored(place, of) => {
            let element = stored_element(alloc, structures, place, &of, index, span);
            drop(of);
            element
        }
        ValueParts::Borrowed { array, element, .. } => {
            borrowed_element(alloc, structures, array, element, index, span)
        }
        other => {
            drop(other);
            drop(index);
            Ok(None)
        }
    }
}

fn index_fault(at: u32, array: &Found, index: &Found) -> Option<Fault>
    ensures { result ≡ least_of (listed array.now.fault ++ (listed index.now.fault
        ++ expressions.index_faults at array.now.place
        (option_map values.kind_of (option_map value_of array.now.value))
        (option_map values.kind_of (option_map value_of index.now.value)))) }
{
    let no_array = fails_array(kind_found(&array.value));
    let no_integer = fails_integer(&index.value);
    let wrong = !array.place || no_array || no_integer;
    two_or_fault(array.fault, index.fault, wrong, FaultKind::Mismatch, at)
}

/// `[ ]` on an array and an index.
pub fn index(
    alloc: Global,
    scope: &Scope<'_>,
    span: Span,
    array: Found,
    index: Found,
) -> Result<Found, AllocError>
    ensures { IfOk result (λ r. found_of r (scope_of scope.now)
        ≡ squeezed (expressions.index_found span (found_of array (scope_of scope.now))
        (found_of index (scope_of scope.now)))) }
{
    let fault = index_fault(span.start, &array, &index);
    let index = number_in(index.value);
    let value = index_value(alloc, &scope.structures, span, array.value, index);
    found(fault, value, array.place, false)
}
