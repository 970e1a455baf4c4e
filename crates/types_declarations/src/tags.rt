//! Tags without a list (C17 6.7.2.3).
ghost use Rattle.std.specs.Prelude.{◌≡◌, IfOk, Some, None, true, false, option_map};
ghost use Rattle.mc_tree.specs.Views.{name_of};
ghost use Rattle.types_rules.specs.Declarators as declarators;
ghost use Rattle.types_rules.specs.Scopes as scopes;
ghost use Rattle.types_rules.specs.Types as types;
ghost use Rattle.types_scopes.specs.Types.{base_of, type_of};
ghost use Rattle.types_scopes.specs.Views.{scope_of};
ghost use Rattle.types_scopes.specs.Found.{judged_of};

use mc_tree::Identifier;
use mc_typed::Span;
use mc_value::IntType;
use std::alloc::{AllocError, Global};
use types_faults::{Fault, FaultKind};
use types_scopes::found::Judged;
use types_scopes::{Base, CType, Scope, Structure, TagMeaning, is_faulty};

/// A type without `const` and without lengths. Takes no memory.
pub fn plain(alloc: Global, base: Base) -> CType
    ensures { type_of result ≡ types.plain (base_of base) }
{
    CType {
        base,
        is_const: false,
        lengths: Vec::new(alloc),
    }
}

/// What has a fault and stands for nothing.
pub(crate) fn faulty<A>(kind: FaultKind, at: u32) -> Judged<A>
    ensures fault { result.fault ≡ Some (record { kind = kind; at = at }) }
    ensures value { result.value ≡ None }
{
    Judged {
        fault: Some(Fault { kind, at }),
        value: None,
    }
}

/// What has no fault.
pub(crate) fn faultless<A>(value: Option<A>) -> Judged<A>
    ensures fault { result.fault ≡ None }
    ensures value { result.value ≡ value }
{
    Judged { fault: None, value }
}

/// The structure type with this number, where its list has no fault.
fn structure_type(alloc: Global, scope: &Scope<'_>, number: usize) -> Option<CType>
    ensures { option_map type_of result ≡ declarators.structure_type number (scope_of scope.now) }
{
    if is_faulty(&scope.structures, Base::Tagged(number)) {
        None
    } else {
        Some(plain(alloc, Base::Tagged(number)))
    }
}

fn declare_structure<'a>(
    alloc: Global,
    scope: &mut Scope<'a>,
    tag: &Identifier<'a>,
) -> Result<Judged<CType>, AllocError>
    ensures { IfOk result (λ r. judged_of type_of r (scope_of scope.new)
        ≡ declarators.declared_tag (name_of tag.now) (scope_of scope.old) None) }
{
    let number = scope.structures.len();
    let Ok(()) = scope.add_structure(Structure::Incomplete { begun: false }) else {
        return Err(AllocError);
    };
    match scope.declare_tag(tag, TagMeaning::Structure(number)) {
        Ok(()) => Ok(faultless(Some(plain(alloc, Base::Tagged(number))))),
        Err(error) => Err(error),
    }
}

/// A structure's tag that is a whole declaration.
fn declared_tag<'a>(
    alloc: Global,
    scope: &mut Scope<'a>,
    tag: &Identifier<'a>,
) -> Result<Judged<CType>, AllocError>
    ensures { IfOk result (λ r. judged_of type_of r (scope_of scope.new)
        ≡ declarators.structure_tag true (name_of tag.now) tag.now.span (scope_of scope.old)) }
{
    match scope.tag_here(tag).copied() {
        None => declare_structure(alloc, scope, tag),
        Some(TagMeaning::Structure(number)) => {
            Ok(faultless(structure_type(alloc, scope, number)))
        }
        Some(TagMeaning::Enumeration) => Ok(faulty(FaultKind::Redeclared, tag.span.start)),
    }
}

/// Another use of a structure's tag.
fn used_structure_tag(
    alloc: Global,
    scope: &Scope<'_>,
    tag: &Identifier<'_>,
    span: Span,
) -> Judged<CType>
    ensures { judged_of type_of result (scope_of scope.now)
        ≡ declarators.structure_tag false (name_of tag.now) span (scope_of scope.now) }
{
    match scope.tag(tag).copied() {
        None => faulty(FaultKind::Undeclared, tag.span.start),
        Some(TagMeaning::Structure(number)) => faultless(structure_type(alloc, scope, number)),
        Some(TagMeaning::Enumeration) => faulty(FaultKind::Mismatch, span.start),
    }
}

/// A structure's tag without a list; `alone` says that it is a whole declaration.
#[inline(never)]
pub fn structure_tag<'a>(
    alloc: Global,
    scope: &mut Scope<'a>,
    alone: bool,
    tag: &Identifier<'a>,
    span: Span,
) -> Result<Judged<CType>, AllocError>
    ensures { IfOk result (λ r. judged_of type_of r (scope_of scope.new)
        ≡ declarators.structure_tag alone (name_of tag.now) span (scope_of scope.old)) }
{
    if alone {
        declared_tag(alloc, scope, tag)
    } else {
        Ok(used_structure_tag(alloc, scope, tag, span))
    }
}

/// An enumeration's tag without a list.
#[inline(never)]
pub fn enumeration_tag(
    alloc: Global,
    scope: &Scope<'_>,
    tag: &Identifier<'_>,
    span: Span,
) -> Judged<CType>
    ensures { judged_of type_of result (scope_of scope.now) ≡ declarators.used_enumeration_tag
        (name_of tag.now) span (scope_of scope.now)
        (scopes.tag_of (name_of tag.now) (scope_of scope.now)) }
{
    match scope.tag(tag).copied() {
        None => faulty(FaultKind::Undeclared, tag.span.start),
        Some(TagMeaning::Enumeration) => {
            faultless(Some(plain(alloc, Base::Integer(IntType::Int))))
        }
        Some(TagMeaning::Structure(_)) => faulty(FaultKind::Mismatch, span.start),
    }
}
