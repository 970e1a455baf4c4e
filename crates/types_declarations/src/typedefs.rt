//! Typedef names (C17 6.7.8), and what declares no object.
ghost use Rattle.std.specs.Prelude.{◌≡◌, IfOk, Some, option_map, option_and_then, option_copied};
ghost use Rattle.mc_tree.specs.Tree.{Name};
ghost use Rattle.mc_tree.specs.Units as units;
ghost use Rattle.mc_tree.specs.Views.{name_of};
ghost use Rattle.types_rules.specs.Declarators as declarator_rules;
ghost use Rattle.types_rules.specs.Scopes as scopes;
ghost use Rattle.types_scopes.specs.Types.{type_of};
ghost use Rattle.types_scopes.specs.Views.{meaning_of, scope_of};
ghost use Rattle.types_declarations.specs.Declarations.{optional_of, written};
ghost use Rattle.types_declarations.specs.Halves.{begun, declared_ended, squeezed_begun, typedef_begun};
ghost use Rattle.types_scopes.specs.Statements.{declarators_of};
ghost use Rattle.types_scopes.specs.Found.{judged_of};
ghost use Rattle.types_faults.specs.Kept.{listed};
ghost use Rattle.types_scopes.specs.steps.Squeezed.{squeezed_part};

use crate::declarators::copy_unless;
use crate::faults::first_fault;
use crate::objects::typedef_fault;
use crate::tags::{faultless, faulty};
use mc_tree::{ArrayLength, Identifier};
use mc_typed::{Declarator, Initializer};
use std::alloc::{AllocError, Global};
use types_faults::{Fault, FaultKind, after};
use types_scopes::found::Judged;
use types_scopes::lists::unused_inner;
use types_scopes::{CType, Meaning, Scope, is_faulty};

// A type that is used: none where its structure has a list with a fault.
fn used_type(scope: &Scope<'_>, of: &CType) -> Result<Option<CType>, AllocError>
    ensures { IfOk result (λ r. option_map type_of r
        ≡ declarator_rules.used_type (scope_of scope.now) (type_of of.now)) }
{
    if is_faulty(&scope.structures, of.base) {
        Ok(None)
    } else {
        match of.try_clone() {
            Ok(of) => Ok(Some(of)),
            Err(error) => Err(error),
        }
    }
}

fn type_used(scope: &Scope<'_>, of: &Option<CType>) -> Result<Option<CType>, AllocError>
    ensures { IfOk result (λ r. option_map type_of r
        ≡ option_and_then (declarator_rules.used_type (scope_of scope.now))
        (option_map type_of of.now)) }
{
    match of {
        Some(of) => used_type(scope, of),
        None => Ok(None),
    }
}

fn type_named(scope: &Scope<'_>, meaning: &Meaning, at: u32) -> Result<Judged<CType>, AllocError>
    ensures { IfOk result (λ r. (name : Name) → name.span.start ≡ at
        → judged_of type_of r (scope_of scope.now)
        ≡ declarator_rules.typedef_type name (scope_of scope.now) (Some (meaning_of meaning.now))) }
{
    match meaning {
        Meaning::Typedef { of } => match type_used(scope, of) {
            Ok(of) => Ok(faultless(of)),
            Err(error) => Err(error),
        },
        Meaning::Automatic { .. } => Ok(faulty(FaultKind::Undeclared, at)),
        Meaning::Static { .. } => Ok(faulty(FaultKind::Undeclared, at)),
        Meaning::Borrowed { .. } => Ok(faulty(FaultKind::Undeclared, at)),
        Meaning::Constant { .. } => Ok(faulty(FaultKind::Undeclared, at)),
        Meaning::Function { .. } => Ok(faulty(FaultKind::Undeclared, at)),
    }
}

/// The type that a typedef name stands for (C17 6.7.8p3).
#[inline(never)]
pub fn typedef_name(scope: &Scope<'_>, name: &Identifier<'_>) -> Result<Judged<CType>, AllocError>
    ensures { IfOk result (λ r. judged_of type_of r (scope_of scope.now)
        ≡ declarator_rules.typedef_type (name_of name.now) (scope_of scope.now)
        (scopes.meaning_of (name_of name.now) (scope_of scope.now))) }
{
    match scope.meaning(name) {
        Some(meaning) => type_named(scope, meaning, name.span.start),
        None => Ok(faulty(FaultKind::Undeclared, name.span.start)),
    }
}

/// Declares a typedef name, before its initializer, which it may not have; `faults` is the first
/// fault of its lengths. Its first fault.
pub fn begin_typedef<'a>(
    scope: &mut Scope<'a>,
    faults: Option<Fault>,
    name: &Identifier<'a>,
    lengths: &[ArrayLength<'_>],
    value: Option<&mc_tree::Initializer<'_>>,
    of: &Option<CType>,
) -> Result<Option<Fault>, AllocError>
    ensures { IfOk result (λ r. begun r (scope_of scope.new) ≡ squeezed_begun
        (typedef_begun (listed faults) (name_of name.now) (written lengths.now)
        (option_map type_of of.now) (option_map units.initializer_of (option_copied value.entry))
        (scope_of scope.old))) }
{
    let own = typedef_fault(scope, name, lengths, value);
    let fault = after(faults, own);
    let Ok(of) = copy_unless(fault, of) else {
        return Err(AllocError);
    };
    match scope.declare(name, Meaning::Typedef { of }) {
        Ok(()) => Ok(fault),
        Err(error) => Err(error),
    }
}

/// A typedef name or a function, after its initializer: it declares no object.
pub fn end_declared(
    alloc: Global,
    fault: Option<Fault>,
    value: Judged<Option<Initializer>>,
) -> Judged<Vec<Declarator>>
    ensures { (s : scopes.Scope) → judged_of declarators_of result s
        ≡ squeezed_part (declared_ended (listed fault) (judged_of optional_of value s)) }
{
    let first = first_fault(fault, value.fault);
    unused_inner(value.value);
    Judged {
        fault: first,
        value: Some(Vec::new(alloc)),
    }
}
