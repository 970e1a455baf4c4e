//! Members of structures (C17 6.5.2.3).
ghost use Rattle.std.specs.Prelude.{◌≡◌, ◌++◌, ℕ, List, IfOk, IfSome, Some, map, slice_get, option_map, option_and_then};
ghost use Rattle.mc_tree.specs.Views.{name_of};
ghost use Rattle.mc_typed.specs.Layout as objects;
ghost use Rattle.mc_typed.specs.Tree as typed;
ghost use Rattle.mc_typed.specs.Views.{place_of};
ghost use Rattle.types_faults.specs.Faults.{least_of};
ghost use Rattle.types_faults.specs.Kept.{listed};
ghost use Rattle.types_rules.specs.Profile.{counted};
ghost use Rattle.types_rules.specs.Types as types;
ghost use Rattle.types_rules.specs.Values as values;
ghost use Rattle.types_rules.specs.Expressions as expressions;
ghost use Rattle.types_scopes.specs.Listed.{selected_of};
ghost use Rattle.types_scopes.specs.Types.{base_of, type_of};
ghost use Rattle.types_scopes.specs.Views.{scope_of, structure_of};
ghost use Rattle.types_scopes.specs.Found.{found_of, kind_of, value_of};
ghost use Rattle.types_scopes.specs.steps.Squeezed.{squeezed};

use crate::operands::{boxed, found};
use mc_tree::Identifier;
use mc_typed::{Place, Span};
use std::alloc::{AllocError, Global};
use types_faults::{Fault, FaultKind, after, fault_where, or_fault};
use types_scopes::found::{Found, kind_found};
use types_scopes::kind::{Kind, fails_structure};
use types_scopes::parts::ValueParts;
use types_scopes::sums::counted;
use types_scopes::value::Value;
use types_scopes::{Base, CType, Member, Scope, Structure};

// The member of a structure with this name, and its number.
fn selected_in<'t>(structure: &'t Structure<'_>, name: &[u8]) -> Option<(usize, &'t Member)>
    ensures member { option_map (λ r. selected_of name.now r.0 r.1.now) result
        ≡ expressions.selected 0 name.now (types.members_of (Some (structure_of structure.now))) }
    ensures offset { IfSome result (λ r. r.1.now.offset ≡ counted (objects.start
        (expressions.layouts_of (types.members_of (Some (structure_of structure.now)))) r.0)) }
{
    match structure {
        Structure::Complete(complete) => complete.select(name),
        Structure::Incomplete { .. } => None,
        Structure::Faulty => None,
    }
}

// The same of the structure type with this number.
#[tactic(auto, using(crate::proofs::Members::structure_at))]
fn selected<'t>(
    structures: &'t [Structure<'_>],
    number: usize,
    name: &[u8],
) -> Option<(usize, &'t Member)>
    ensures member { option_map (λ r. selected_of name.now r.0 r.1.now) result
        ≡ expressions.selected 0 name.now
        (types.members_of (slice_get (map structure_of structures.now) number)) }
    ensures offset { IfSome result (λ r. r.1.now.offset ≡ counted (objects.start
        (expressions.layouts_of (types.members_of
        (slice_get (map structure_of structures.now) number)))
        r.0)) }
{
    match structures.get(number) {
        Some(structure) => selected_in(structure, name),
        None => None,
    }
}

fn is_undeclared(
    structures: &[Structure<'_>],
    name: &Identifier<'_>,
    kind: Option<Kind<'_>>,
) -> bool
    ensures { result ≡ expressions.undeclared_member (map structure_of structures.now)
        (name_of name.now)
        (option_map kind_of kind.entry) }
{
    match kind {
        Some(kind) => match kind {
            Kind::Structure(number) => match selected(structures, number, name.text) {
                Some(_) => false,
                None => true,
            },
            _ => false,
        },
        None => false,
    }
}

fn member_fault(
    at: u32,
    name: &Identifier<'_>,
    structures: &[Structure<'_>],
    place: bool,
    kind: Option<Kind<'_>>,
) -> Option<Fault>
    ensures { result ≡ least_of (expressions.member_faults at (name_of name.now)
        (map structure_of structures.now) place (option_map kind_of kind.entry)) }
{
    let no_structure = fails_structure(kind);
    let own = fault_where(!place || no_structure, FaultKind::Mismatch, at);
    let undeclared = is_undeclared(structures, name, kind);
    or_fault(own, undeclared, FaultKind::Undeclared, name.span.start)
}

// The first fault of `.` on an operand.
fn selection_fault(
    at: u32,
    name: &Identifier<'_>,
    structures: &[Structure<'_>],
    operand: &Found,
) -> Option<Fault>
    ensures { result ≡ least_of (listed operand.now.fault
        ++ expressions.member_faults at (name_of name.now)
        (map structure_of structures.now) operand.now.place
        (option_map values.kind_of (option_map value_of operand.now.value))) }
{
    let kind = kind_found(&operand.value);
    let own = member_fault(at, name, structures, operand.place, kind);
    after(operand.fault, own)
}

// A member of a place, by its type, its number and where it begins.
fn typed_member(
    alloc: Global,
    place: Place,
    of: CType,
    span: Span,
    number: u32,
    offset: u32,
) -> Result<Option<Value>, AllocError>
    ensures { IfOk result (λ r. option_map value_of r
        ≡ Some (values.Stored (typed.Member (place_of place) number offset span) (type_of of))) }
{
    match boxed(alloc, place) {
        Ok(structure) => {
            let place = Place::Member {
                structure,
                member: number,
                offset,
                span,
            };
            Ok(Some(Value::Stored(place, of)))
        }
        Err(error) => {
            drop(of);
            Err(error)
        }
    }
}

// The same, where the member has a type.
fn member_at(
    alloc: Global,
    place: Place,
    is_const: bool,
    span: Span,
    number: usize,
    member: &Member,
) -> Result<Option<Value>, AllocError>
    ensures { IfOk result (λ r. (members : List types.Member) (name : List ℕ)
        → member.now.offset ≡ counted (objects.start (expressions.layouts_of members) number)
        → option_map value_of r
        ≡ expressions.member_at members (place_of place) is_const span
        (selected_of name number member.now)) }
{
    match &member.of {
        Some(of) => {
            match of.try_clone() {
                Ok(of) => {
                    let of = of.qualified(is_const);
                    typed_member(alloc, place, of, span, counted(number), member.offset)
                }
                Err(error) => {
                    drop(place);
                    Err(error)
                }
            }
        }
        None => {
            drop(place);
            Ok(None)
        }
    }
}

fn stored_member(
    alloc: Global,
    structures: &[Structure<'_>],
    name: &Identifier<'_>,
    span: Span,
    place: Place,
    of: &CType,
) -> Result<Option<Value>, AllocError>
    ensures { IfOk result (λ r. option_map value_of r
        ≡ expressions.stored_member (map structure_of structures.now) (name_of name.now) span
        (place_of place) (type_of of.now) of.now.lengths.items (base_of of.now.base)) }
{
    if !of.lengths.is_empty() {
        drop(place);
        return Ok(None);
    }
    match of.base {
        Base::Void | Base::Integer(_) => {
            drop(place);
            Ok(None)
        }
        Base::Tagged(base) => match selected(structures, base, name.text) {
            Some((number, member)) => member_at(alloc, place, of.is_const, span, number, member),
            None => {
                drop(place);
                Ok(None)
            }
        },
    }
}

fn member_of(
    alloc: Global,
    structures: &[Structure<'_>],
    name: &Identifier<'_>,
    span: Span,
    value: Option<Value>,
) -> Result<Option<Value>, AllocError>
    ensures { IfOk result (λ r. option_map value_of r
        ≡ option_and_then (expressions.member_of (map structure_of structures.now)
        (name_of name.now) span)
        (option_map value_of value)) }
{
    let Some(value) = value else {
        return Ok(None);
    };
    match value.into_parts() {
        ValueParts::Stored(place, of) => {
            let member = stored_member(alloc, structures, name, span, place, &of);
            drop(of);
            member
        }
        other => {
            drop(other);
            Ok(None)
        }
    }
}

/// `.` on a structure.
pub fn member(
    alloc: Global,
    scope: &Scope<'_>,
    name: &Identifier<'_>,
    span: Span,
    operand: Found,
) -> Result<Found, AllocError>
    ensures { IfOk result (λ r. found_of r (scope_of scope.now)
        ≡ squeezed (expressions.member_found (name_of name.now) span
        (found_of operand (scope_of scope.now)))) }
{
    let fault = selection_fault(span.start, name, &scope.structures, &operand);
    let value = member_of(alloc, &scope.structures, name, span, operand.value);
    found(fault, value, operand.place, false)
}
