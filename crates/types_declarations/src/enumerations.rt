//! Enumerations (C17 6.7.2.2).
ghost use Rattle.std.specs.Prelude.{◌≡◌, ◌++◌, ◌+ℤ◌, pos, IfOk, IsTrue, List, Some, is_some, option_map};
ghost use Rattle.mc_tree.specs.Views.{name_of, tag_of};
ghost use Rattle.types_faults.specs.declared.fault.Fault.{Fault};
ghost use Rattle.types_rules.specs.Declarators as declarator_rules;
ghost use Rattle.types_faults.specs.Faults.{least_of, unless_faulty};
ghost use Rattle.types_rules.specs.Scopes as scopes;
ghost use Rattle.types_rules.specs.Types as types;
ghost use Rattle.types_rules.specs.Values as judged;
ghost use Rattle.types_rules.specs.Constants as constants;
ghost use Rattle.types_scopes.specs.Types.{type_of};
ghost use Rattle.types_scopes.specs.Views.{scope_of};
ghost use Rattle.types_declarations.specs.Declarations.{number_judged};
ghost use Rattle.types_scopes.specs.Found.{found_of, judged_of};
ghost use Rattle.types_faults.specs.Kept.{listed};
ghost use Rattle.types_scopes.specs.steps.Squeezed.{squeezed_part};

use crate::declarators::{misnamed_fault, redeclared_fault};
use crate::faults::first_fault;
use crate::tags::plain;
use mc_tree::Identifier;
use mc_value::{IntType, range};
use std::alloc::{AllocError, Global};
use types_faults::{Fault, FaultKind, fault_where, lesser};
use types_scopes::found::{Found, Judged};
use types_scopes::values::{constant_found, fault_of_constant};
use types_scopes::{Base, CType, Meaning, Scope, TagMeaning};

fn is_tagged_here(scope: &Scope<'_>, tag: &Identifier<'_>) -> bool
    ensures { result ≡ is_some (scopes.tag_here (name_of tag.now) (scope_of scope.now)) }
{
    match scope.tag_here(tag) {
        Some(_) => true,
        None => false,
    }
}

fn enumeration_fault(scope: &Scope<'_>, tag: &Identifier<'_>) -> Option<Fault>
    ensures { listed result
        ≡ declarator_rules.enumeration_faults (Some (name_of tag.now)) (scope_of scope.now) }
{
    let redeclared = is_tagged_here(scope, tag);
    fault_where(redeclared, FaultKind::Redeclared, tag.span.start)
}

/// The list of an enumeration begins: its tag is in scope from here on. The fault of the tag.
#[inline(never)]
pub fn enter_enumeration<'a>(
    scope: &mut Scope<'a>,
    tag: &Option<Identifier<'a>>,
) -> Result<Option<Fault>, AllocError>
    ensures fault { IfOk result (λ r. listed r
        ≡ declarator_rules.enumeration_faults (tag_of tag.now) (scope_of scope.old)) }
    ensures scope { IfOk result (λ _. scope_of scope.new
        ≡ declarator_rules.enumeration_scope (tag_of tag.now) (scope_of scope.old)) }
{
    match tag {
        Some(tag) => {
            let fault = enumeration_fault(scope, tag);
            match scope.declare_tag(tag, TagMeaning::Enumeration) {
                Ok(()) => Ok(fault),
                Err(error) => Err(error),
            }
        }
        None => Ok(None),
    }
}

fn enumeration_type(alloc: Global, fault: Option<Fault>) -> Option<CType>
    ensures { option_map type_of result ≡ unless_faulty (listed fault) (Some types.int) }
{
    match fault {
        Some(_) => None,
        None => Some(plain(alloc, Base::Integer(IntType::Int))),
    }
}

/// An enumeration with its list, from the fault of its tag.
#[tactic(auto, using(crate::proofs::DeclarationFaults::unless_least_of))]
#[inline(never)]
pub fn enumeration(alloc: Global, own: Option<Fault>, enumerators: Judged<i128>) -> Judged<CType>
    ensures { (s : scopes.Scope) → judged_of type_of result s
        ≡ squeezed_part (declarator_rules.enumeration_judged (listed own)
        (number_judged enumerators s)) }
{
    let fault = first_fault(own, enumerators.fault);
    Judged {
        fault,
        value: enumeration_type(alloc, fault),
    }
}

// ---- constants

// Whether int has the value.
fn is_int(value: i128) -> bool
    ensures { result ≡ declarator_rules.fits_int (Some value) }
{
    let (least, greatest) = range(IntType::Int);
    least <= value && value <= greatest
}

fn fits_int(value: Option<i128>) -> bool
    ensures { result ≡ declarator_rules.fits_int value }
{
    match value {
        Some(value) => is_int(value),
        None => true,
    }
}

fn in_int(value: Option<i128>) -> Option<i128>
    ensures exact { result ≡ declarator_rules.in_int value }
    ensures fits { IsTrue (declarator_rules.fits_int result) }
{
    if fits_int(value) { value } else { None }
}

// The value of the next enumerator, after one that fits int.
fn next_value(value: Option<i128>) -> Option<i128>
    requires { IsTrue (declarator_rules.fits_int value) }
    ensures { result ≡ option_map (λ w. w +ℤ pos 1) value }
{
    match value {
        Some(value) => Some(value + 1),
        None => None,
    }
}

#[tactic(auto, using(types_scopes::proofs::Squeezed::joined_listed, types_scopes::proofs::Squeezed::joined_leasts))]
fn enumerator_fault(scope: &Scope<'_>, name: &Identifier<'_>, value: Option<i128>) -> Option<Fault>
    ensures { result
        ≡ least_of (declarator_rules.enumerator_faults (name_of name.now) value
        (scope_of scope.now)) }
{
    let misfit = fault_where(!fits_int(value), FaultKind::Mismatch, name.span.start);
    let misnamed = misnamed_fault(scope, name);
    lesser(redeclared_fault(scope, name), lesser(misnamed, misfit))
}

// Declares the enumerator; the value of the next one.
fn declare_enumerator<'a>(
    scope: &mut Scope<'a>,
    name: &Identifier<'a>,
    value: Option<i128>,
) -> Result<Option<i128>, AllocError>
    ensures value { IfOk result (λ r. r
        ≡ option_map (λ w. w +ℤ pos 1) (declarator_rules.in_int value)) }
    ensures scope { IfOk result (λ _. scope_of scope.new
        ≡ scopes.with_name (name_of name.now) (scopes.Constant (declarator_rules.in_int value))
        (scope_of scope.old)) }
{
    let value = in_int(value);
    match scope.declare(name, Meaning::Constant { value }) {
        Ok(()) => Ok(next_value(value)),
        Err(error) => Err(error),
    }
}

/// An enumerator of this value; the value of the next one.
pub fn enumerator<'a>(
    scope: &mut Scope<'a>,
    name: &Identifier<'a>,
    value: Option<i128>,
) -> Result<Judged<i128>, AllocError>
    ensures { IfOk result (λ r. number_judged r (scope_of scope.new)
        ≡ squeezed_part (declarator_rules.enumerator_judged (name_of name.now) value
        (scope_of scope.old))) }
{
    let fault = enumerator_fault(scope, name, value);
    match declare_enumerator(scope, name, value) {
        Ok(value) => Ok(Judged { fault, value }),
        Err(error) => Err(error),
    }
}

// The fault of the expression and of the enumerator, in their order.
#[tactic(auto, using(types_scopes::proofs::Squeezed::joined_listed, types_scopes::proofs::Squeezed::joined_leasts))]
fn valued_fault(at: u32, found: &Found, own: Option<Fault>) -> Option<Fault>
    ensures { (s : scopes.Scope) (fs : List Fault) → own ≡ least_of fs
        → result ≡ least_of (listed found.now.fault ++ (fs
        ++ constants.constant_faults at found.now.constant
        (judged.number_found (found_of found.now s)))) }
{
    let constant = fault_of_constant(at, found);
    lesser(found.fault, lesser(own, constant))
}

/// An enumerator with an expression that starts here; the value of the next one.
pub fn valued_enumerator<'a>(
    scope: &mut Scope<'a>,
    name: &Identifier<'a>,
    at: u32,
    found: &Found,
) -> Result<Judged<i128>, AllocError>
    ensures { IfOk result (λ r. number_judged r (scope_of scope.new)
        ≡ squeezed_part (declarator_rules.valued_enumerator_judged (name_of name.now) at
        (found_of found.now (scope_of scope.old)))) }
{
    let value = constant_found(found);
    let own = enumerator_fault(scope, name, value);
    let fault = valued_fault(at, found, own);
    let value = declare_enumerator(scope, name, value)?;
    Ok(Judged { fault, value })
}
