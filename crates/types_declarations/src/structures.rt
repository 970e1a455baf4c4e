//! Structures with a list (C17 6.7.2.1).
ghost use Rattle.std.specs.Prelude.{◌≡◌, IfOk, Some, None, false, if◌then◌else◌, map, slice_get, option_map};
ghost use Rattle.mc_tree.specs.Tree.{Name};
ghost use Rattle.mc_tree.specs.Views.{name_of, tag_of};
ghost use Rattle.types_faults.specs.declared.fault.FaultKind.TheVariants.{Redeclared};
ghost use Rattle.types_rules.specs.Declarators as declarators;
ghost use Rattle.types_faults.specs.Faults.{fault, unless_faulty};
ghost use Rattle.types_rules.specs.Scopes as scopes;
ghost use Rattle.types_rules.specs.Types as types;
ghost use Rattle.types_scopes.specs.Listed.{listed_of};
ghost use Rattle.types_scopes.specs.Types.{type_of};
ghost use Rattle.types_scopes.specs.Views.{scope_of, structure_of};
ghost use Rattle.types_declarations.specs.Declarations.{opened_of, listed_members};
ghost use Rattle.types_scopes.specs.Found.{judged_of};
ghost use Rattle.types_faults.specs.Kept.{listed};
ghost use Rattle.types_scopes.specs.steps.Squeezed.{squeezed_part};

use crate::faults::first_fault;
use crate::tags::plain;
use mc_tree::Identifier;
use std::alloc::{AllocError, Global};
use types_faults::{Fault, FaultKind};
use types_scopes::found::Judged;
use types_scopes::{Base, CType, Members, Scope, Structure, TagMeaning};

/// A structure whose list begins: its fault so far, and its number.
#[derive(Drop)]
pub struct Opened {
    pub fault: Option<Fault>,
    pub number: usize,
}

fn open_anew<'a>(scope: &mut Scope<'a>, fault: Option<Fault>) -> Result<Opened, AllocError>
    ensures { IfOk result (λ r. opened_of r (scope_of scope.new)
        ≡ declarators.opened_anew (listed fault) (scope_of scope.old)) }
{
    let number = scope.structures.len();
    match scope.add_structure(Structure::Incomplete { begun: true }) {
        Ok(()) => Ok(Opened { fault, number }),
        Err(error) => Err(error),
    }
}

fn open_with_tag<'a>(
    scope: &mut Scope<'a>,
    fault: Option<Fault>,
    tag: &Identifier<'a>,
) -> Result<Opened, AllocError>
    ensures { IfOk result (λ r. opened_of r (scope_of scope.new)
        ≡ declarators.opened_with_tag (listed fault) (name_of tag.now) (scope_of scope.old)) }
{
    let number = scope.structures.len();
    match scope.declare_tag(tag, TagMeaning::Structure(number)) {
        Ok(()) => open_anew(scope, fault),
        Err(error) => Err(error),
    }
}

/// The fault of a tag that is declared already.
fn declared_already(tag: &Identifier<'_>) -> Option<Fault>
    ensures { listed result ≡ fault Redeclared tag.now.span.start }
{
    Some(Fault {
        kind: FaultKind::Redeclared,
        at: tag.span.start,
    })
}

/// Whether the structure type with this number has had no list so far.
#[tactic(auto, using(crate::proofs::Numbered::structure_at))]
fn has_no_list(scope: &Scope<'_>, number: usize) -> bool
    ensures { (tag : Name) (u : scopes.Scope) → declarators.opened_again tag number u
        (slice_get (scope_of scope.now).structures number)
        ≡ declarators.opened_again tag number u
        (if result then Some (types.Incomplete false) else None) }
{
    match scope.structures.get(number) {
        Some(structure) => match structure {
            Structure::Incomplete { begun } => !*begun,
            Structure::Complete(_) => false,
            Structure::Faulty => false,
        },
        None => false,
    }
}

fn open_again<'a>(
    scope: &mut Scope<'a>,
    tag: &Identifier<'a>,
    number: usize,
) -> Result<Opened, AllocError>
    ensures { IfOk result (λ r. opened_of r (scope_of scope.new)
        ≡ declarators.opened_again (name_of tag.now) number (scope_of scope.old)
        (slice_get (scope_of scope.old).structures number)) }
{
    if has_no_list(scope, number) {
        scope.put_structure(number, Structure::Incomplete { begun: true });
        Ok(Opened {
            fault: None,
            number,
        })
    } else {
        match open_with_tag(scope, declared_already(tag), tag) {
            Ok(opened) => Ok(opened),
            Err(error) => Err(error),
        }
    }
}

fn open_tag<'a>(scope: &mut Scope<'a>, tag: &Identifier<'a>) -> Result<Opened, AllocError>
    ensures { IfOk result (λ r. opened_of r (scope_of scope.new)
        ≡ declarators.opened (Some (name_of tag.now)) (scope_of scope.old)) }
{
    match scope.tag_here(tag).copied() {
        None => open_with_tag(scope, None, tag),
        Some(TagMeaning::Structure(number)) => open_again(scope, tag, number),
        Some(TagMeaning::Enumeration) => open_with_tag(scope, declared_already(tag), tag),
    }
}

/// The list of a structure begins. Its tag is in scope from here on (C17 6.2.1p7).
#[inline(never)]
pub fn open_structure<'a>(
    scope: &mut Scope<'a>,
    tag: &Option<Identifier<'a>>,
) -> Result<Opened, AllocError>
    ensures { IfOk result (λ r. opened_of r (scope_of scope.new)
        ≡ declarators.opened (tag_of tag.now) (scope_of scope.old)) }
{
    match tag {
        Some(tag) => open_tag(scope, tag),
        None => open_anew(scope, None),
    }
}

/// The structure with these members, unless there is a fault.
fn completed<'a>(
    alloc: Global,
    fault: Option<Fault>,
    members: Members<'a>,
) -> Result<Structure<'a>, AllocError>
    ensures { IfOk result (λ r. structure_of r
        ≡ declarators.completed (listed fault) (map listed_of members.entry)) }
{
    match fault {
        Some(_) => {
            drop(members);
            Ok(Structure::Faulty)
        }
        None => match members.complete(alloc) {
            Ok(members) => Ok(Structure::Complete(members)),
            Err(error) => Err(error),
        },
    }
}

fn completed_type(alloc: Global, fault: Option<Fault>, number: usize) -> Option<CType>
    ensures { option_map type_of result
        ≡ unless_faulty (listed fault) (Some (types.plain (types.Tagged number))) }
{
    match fault {
        Some(_) => None,
        None => Some(plain(alloc, Base::Tagged(number))),
    }
}

/// The list of a structure ends: with no fault before it and none in it, the type is complete (C17
/// 6.7.2.1p8).
#[tactic(auto, using(crate::proofs::DeclarationFaults::completed_by_least, crate::proofs::DeclarationFaults::unless_least_of))]
pub fn close_structure<'a>(
    alloc: Global,
    scope: &mut Scope<'a>,
    opened: Opened,
    fault: Option<Fault>,
    members: Members<'a>,
) -> Result<Judged<CType>, AllocError>
    ensures { IfOk result (λ r. (u : scopes.Scope) → judged_of type_of r (scope_of scope.new)
        ≡ squeezed_part (declarators.structure_judged (opened_of opened u)
        (listed_members fault members.entry (scope_of scope.old)))) }
{
    let number = opened.number;
    let fault = first_fault(opened.fault, fault);
    let Ok(structure) = completed(alloc, fault, members) else {
        return Err(AllocError);
    };
    scope.put_structure(number, structure);
    Ok(Judged {
        fault,
        value: completed_type(alloc, fault, number),
    })
}
