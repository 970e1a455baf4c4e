//! Arguments of calls (C17 6.5.2.2).
ghost use Rattle.std.specs.Prelude.{◌≡◌, ◌++◌, IfOk, Ok, map, option_map, option_copied};
ghost use Rattle.mc_typed.specs.Layout as objects;
ghost use Rattle.mc_typed.specs.Tree as typed_tree;
ghost use Rattle.mc_typed.specs.Views.{argument_of, expression_of, place_of};
ghost use Rattle.mc_typed.specs.Views as typed;
ghost use Rattle.types_faults.specs.Faults.{least_of};
ghost use Rattle.types_faults.specs.Kept.{listed};
ghost use Rattle.types_rules.specs.Types as typing;
ghost use Rattle.types_rules.specs.Scopes as scopes;
ghost use Rattle.types_rules.specs.Values as values;
ghost use Rattle.types_rules.specs.Expressions as expressions;
ghost use Rattle.types_rules.specs.Calls as calls;
ghost use Rattle.types_scopes.specs.Types.{type_of};
ghost use Rattle.types_scopes.specs.Types as types;
ghost use Rattle.types_scopes.specs.Views.{scope_of, structure_of};
ghost use Rattle.types_scopes.specs.Given.{given_of};
ghost use Rattle.types_scopes.specs.Found.{found_of, kind_of, value_of};
ghost use Rattle.types_expressions.specs.steps.Gathered.{squeezed_given};

use crate::arrays::array_fits;
use mc_typed::{Argument, Expression, Place};
use mc_value::{IntType, ObjType};
use std::alloc::{AllocError, Global};
use types_faults::{Fault, FaultKind, after, fault_where};
use types_scopes::conversions::convert_to;
use types_scopes::found::{Found, Given, kind_found};
use types_scopes::kind::Kind;
use types_scopes::parts::ValueParts;
use types_scopes::structures::structure_cells;
use types_scopes::value::Value;
use types_scopes::{Base, CType, ParameterKind, Scope, Structure, layout};

fn value_fits(base: Base, kind: Kind<'_>) -> bool
    ensures { result ≡ calls.argument_fits (typing.ByValue (types.base_of base))
        (kind_of kind.entry) }
{
    match base {
        Base::Void => false,
        Base::Integer(_) => kind.is_integer(),
        Base::Tagged(number) => match kind {
            Kind::Structure(other) => number == other,
            _ => false,
        },
    }
}

fn argument_fits(parameter: &ParameterKind, kind: Kind<'_>) -> bool
    ensures { result ≡ calls.argument_fits (types.kind_of parameter.now) (kind_of kind.entry) }
{
    match parameter {
        ParameterKind::Value(base) => value_fits(*base, kind),
        ParameterKind::Array(of) => match kind {
            Kind::Array {
                base,
                is_const,
                lengths,
            } => array_fits(of, base, is_const, lengths),
            _ => false,
        },
    }
}

fn argument_fault(
    at: u32,
    parameter: Option<&ParameterKind>,
    kind: Option<Kind<'_>>,
) -> Option<Fault>
    ensures { result ≡ least_of (calls.argument_faults at
        (option_map types.kind_of (option_copied parameter.entry))
        (option_map kind_of kind.entry)) }
{
    match parameter {
        Some(parameter) => match kind {
            Some(kind) => fault_where(!argument_fits(parameter, kind), FaultKind::Mismatch, at),
            None => None,
        },
        None => None,
    }
}

// ---- values

fn number_argument(
    alloc: Global,
    to: IntType,
    value: Option<Expression>,
) -> Result<Option<Argument>, AllocError>
    ensures { IfOk result (λ r. option_map argument_of r
        ≡ option_map (λ f. typed_tree.NumberArgument (expressions.convert_to to f))
        (option_map expression_of value)) }
{
    match value {
        Some(value) => match convert_to(alloc, to, value) {
            Ok(value) => Ok(Some(Argument::Number { value })),
            Err(error) => Err(error),
        },
        None => Ok(None),
    }
}

fn structure_argument(scope: &Scope<'_>, value: Option<mc_typed::Structure>) -> Option<Argument>
    ensures { option_map argument_of result
        ≡ option_map (λ w. typed_tree.StructureArgument w (scopes.next_slot (scope_of scope.now)))
        (option_map typed.structure_of value) }
{
    match value {
        Some(value) => {
            let copy = scope.next_slot();
            Some(Argument::Structure { value, copy })
        }
        None => None,
    }
}

fn stored_array(parameter: &CType, place: Place, of: &CType) -> Option<Argument>
    ensures { option_map argument_of result
        ≡ calls.stored_array (type_of parameter.now) (place_of place) (type_of of.now)
        of.now.lengths.items }
{
    match of.lengths.as_slice() {
        [length, rest @ ..] => {
            if array_fits(parameter, of.base, of.is_const, rest) {
                Some(Argument::Array {
                    place,
                    length: *length,
                })
            } else {
                drop(place);
                None
            }
        }
        _ => {
            drop(place);
            None
        }
    }
}

fn array_argument(parameter: &CType, value: Value) -> Option<Argument>
    ensures { option_map argument_of result
        ≡ calls.array_argument (type_of parameter.now) (value_of value) }
{
    match value.into_parts() {
        ValueParts::Stored(place, of) => {
            let argument = stored_array(parameter, place, &of);
            drop(of);
            argument
        }
        ValueParts::Borrowed {
            array,
            element,
            span,
        } => {
            let fits = array_fits(parameter, element.base, element.is_const, &element.lengths);
            drop(element);
            if fits {
                Some(Argument::Again { array, span })
            } else {
                None
            }
        }
        other => {
            drop(other);
            None
        }
    }
}

fn argument_value(
    alloc: Global,
    scope: &Scope<'_>,
    parameter: Option<&ParameterKind>,
    value: Option<Value>,
) -> Result<Option<Argument>, AllocError>
    ensures { IfOk result (λ r. option_map argument_of r
        ≡ calls.argument_value (scope_of scope.now)
        (option_map types.kind_of (option_copied parameter.entry)) (option_map value_of value)) }
{
    match parameter {
        Some(parameter) => match value {
            Some(value) => match parameter {
                ParameterKind::Value(base) => match *base {
                    Base::Void => {
                        drop(value);
                        Ok(None)
                    }
                    Base::Integer(to) => number_argument(alloc, to, value.into_number()),
                    Base::Tagged(number) => {
                        Ok(structure_argument(scope, value.into_structure(number)))
                    }
                },
                ParameterKind::Array(of) => Ok(array_argument(of, value)),
            },
            None => Ok(None),
        },
        None => {
            drop(value);
            Ok(None)
        }
    }
}

// ---- copies of structures

// The number of the structure type that an argument copies.
fn copied_structure(parameter: Option<&ParameterKind>, value: &Option<Argument>) -> Option<usize>
    ensures { (s : scopes.Scope) → option_map (calls.layout_of_structure s) result
        ≡ calls.copy_of s (option_map types.kind_of (option_copied parameter.entry))
        (option_map argument_of value.now) }
{
    match parameter {
        Some(parameter) => match parameter {
            ParameterKind::Value(base) => match base {
                Base::Tagged(number) => match value {
                    Some(_) => Some(*number),
                    None => None,
                },
                Base::Void => None,
                Base::Integer(_) => None,
            },
            ParameterKind::Array(_) => None,
        },
        None => None,
    }
}

// The layout of an object of the structure type with this number.
fn structure_layout(
    alloc: Global,
    structures: &[Structure<'_>],
    number: usize,
) -> Result<ObjType, AllocError>
    ensures { IfOk result (λ r. objects.object_type_of r ≡ typing.layout_of
        (map structure_of structures.now) (typing.plain (typing.Tagged number))) }
{
    let of = CType::plain(alloc, Base::Tagged(number));
    let object = layout(alloc, structures, &of);
    drop(of);
    object
}

/// One more object of the function, of the structure type with this number; how many cells it has.
pub fn add_temporary(alloc: Global, scope: &mut Scope<'_>, number: usize) -> Result<u32, AllocError>
    ensures cells { IfOk result (λ n. n
        ≡ scopes.cells_counted (Some (calls.layout_of_structure (scope_of scope.old) number))) }
    ensures scope { IfOk result (λ _. scope_of scope.new
        ≡ scopes.with_object (calls.layout_of_structure (scope_of scope.old) number)
        (scope_of scope.old)) }
{
    let count = structure_cells(&scope.structures, number);
    let object = structure_layout(alloc, &scope.structures, number)?;
    scope.add_object(object, count)?;
    Ok(count)
}

fn add_counted(
    alloc: Global,
    scope: &mut Scope<'_>,
    number: Option<usize>,
) -> Result<u32, AllocError>
    ensures cells { IfOk result (λ n. n ≡ scopes.cells_counted
        (option_map (calls.layout_of_structure (scope_of scope.old)) number)) }
    ensures scope { IfOk result (λ _. scope_of scope.new
        ≡ scopes.with_counted (option_map (calls.layout_of_structure (scope_of scope.old)) number)
        (scope_of scope.old)) }
{
    match number {
        Some(number) => add_temporary(alloc, scope, number),
        None => Ok(0),
    }
}

// The object of the copy of an argument, where it copies a structure; how many cells it has.
fn add_copy(
    alloc: Global,
    scope: &mut Scope<'_>,
    parameter: Option<&ParameterKind>,
    value: &Option<Argument>,
) -> Result<u32, AllocError>
    ensures cells { IfOk result (λ n. n ≡ scopes.cells_counted (calls.copy_of (scope_of scope.old)
        (option_map types.kind_of (option_copied parameter.entry))
        (option_map argument_of value.now))) }
    ensures scope { IfOk result (λ _. scope_of scope.new
        ≡ scopes.with_counted (calls.copy_of (scope_of scope.old)
        (option_map types.kind_of (option_copied parameter.entry))
        (option_map argument_of value.now)) (scope_of scope.old)) }
{
    let number = copied_structure(parameter, value);
    add_counted(alloc, scope, number)
}

// The first fault of an argument for a parameter.
fn judged(at: u32, parameter: Option<&ParameterKind>, found: &Found) -> Option<Fault>
    ensures { result ≡ least_of (listed found.now.fault ++ calls.argument_faults at
        (option_map types.kind_of (option_copied parameter.entry))
        (option_map values.kind_of (option_map value_of found.now.value))) }
{
    let own = argument_fault(at, parameter, kind_found(&found.value));
    after(found.fault, own)
}

// An argument, and the object of its copy.
fn with_copy(
    alloc: Global,
    scope: &mut Scope<'_>,
    parameter: Option<&ParameterKind>,
    fault: Option<Fault>,
    value: Result<Option<Argument>, AllocError>,
) -> Result<Given<Argument>, AllocError>
    ensures fault { IfOk result (λ r. r.fault ≡ fault) }
    ensures value { IfOk result (λ r. value ≡ Ok r.value) }
    ensures copied { IfOk result (λ r. r.copied
        ≡ scopes.cells_counted (calls.copy_of (scope_of scope.old)
        (option_map types.kind_of (option_copied parameter.entry))
        (option_map argument_of r.value))) }
    ensures scope { IfOk result (λ r. scope_of scope.new
        ≡ scopes.with_counted (calls.copy_of (scope_of scope.old)
        (option_map types.kind_of (option_copied parameter.entry))
        (option_map argument_of r.value)) (scope_of scope.old)) }
{
    match value {
        Ok(value) => match add_copy(alloc, scope, parameter, &value) {
            Ok(copied) => Ok(Given {
                fault,
                value,
                copied: copied as u64,
            }),
            Err(error) => {
                drop(value);
                Err(error)
            }
        },
        Err(error) => Err(error),
    }
}

/// An argument that starts here, for its parameter where there is one. The copy of a structure is
/// an object of the function.
pub fn argument(
    alloc: Global,
    scope: &mut Scope<'_>,
    at: u32,
    parameter: Option<&ParameterKind>,
    found: Found,
) -> Result<Given<Argument>, AllocError>
    ensures { IfOk result (λ r. given_of argument_of r (scope_of scope.new)
        ≡ squeezed_given (calls.argument_judged at
        (option_map types.kind_of (option_copied parameter.entry))
        (found_of found (scope_of scope.old)))) }
{
    let fault = judged(at, parameter, &found);
    let value = argument_value(alloc, scope, parameter, found.value);
    with_copy(alloc, scope, parameter, fault, value)
}
