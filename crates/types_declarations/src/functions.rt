//! Declarations of functions (C17 6.7.6.3).
ghost use Rattle.std.specs.Prelude.{◌≡◌, ◌++◌, ℕ, IfOk, List, Option, option_map, option_copied};
ghost use Rattle.mc_tree.specs.Units as units;
ghost use Rattle.mc_tree.specs.Views.{name_of};
ghost use Rattle.types_faults.specs.declared.fault.Fault.{Fault};
ghost use Rattle.types_rules.specs.Declarations as declarations;
ghost use Rattle.types_faults.specs.Faults.{least_of, unless_faulty};
ghost use Rattle.types_rules.specs.Scopes as scopes;
ghost use Rattle.types_rules.specs.Types as types;
ghost use Rattle.types_scopes.specs.Types.{type_of};
ghost use Rattle.types_scopes.specs.Views.{meaning_of, scope_of};
ghost use Rattle.types_declarations.specs.Declarations.{listed_parameters, meaning_of_earlier, signature_in, storage_from};
ghost use Rattle.types_declarations.specs.Halves.{begun, function_begun, squeezed_begun};

use crate::declarators::redeclared_fault;
use crate::earlier::{Earlier, declared_before};
use crate::parameters::Parameters;
use crate::signatures::{function_fault, repeated_fault, signature};
use crate::storage::{Storage, has_initializer};
use crate::values::unless_fault;
use mc_tree::{Identifier, Initializer};
use std::alloc::{AllocError, Global};
use std::sync::Arc;
use types_faults::{Fault, FaultKind, after, fault_where, lesser};
use types_scopes::lists::unused;
use types_scopes::{CType, Meaning, Scope, Signature};

// A typedef has no function declarator, and no function declarator has an initializer.
fn form_fault(storage: Storage, value: Option<&Initializer<'_>>, at: u32) -> Option<Fault>
    ensures { result ≡ least_of (declarations.function_form_faults (storage_from storage)
        (option_map units.initializer_of (option_copied value.entry)) at) }
{
    match storage {
        Storage::Typedef => Some(Fault {
            kind: FaultKind::Mismatch,
            at,
        }),
        Storage::Static => fault_where(has_initializer(value), FaultKind::Mismatch, at),
        Storage::Automatic => fault_where(has_initializer(value), FaultKind::Mismatch, at),
    }
}

// A typedef name is declared once, and a function with one type.
fn again_fault(
    scope: &Scope<'_>,
    storage: Storage,
    name: &Identifier<'_>,
    before: &Earlier,
    signature: &Option<Arc<Signature>>,
) -> Option<Fault>
    requires { (f : Option types.Signature) (at : ℕ)
        → declarations.repeated_faults (meaning_of_earlier before.now) f at
        ≡ declarations.repeated_faults
        (scopes.meaning_here (name_of name.now) (scope_of scope.now)) f at }
    ensures { result ≡ least_of (declarations.again_faults (storage_from storage) (name_of name.now)
        (signature_in signature.now) (scope_of scope.now)) }
{
    match storage {
        Storage::Typedef => redeclared_fault(scope, name),
        Storage::Static => repeated_fault(before, signature, name.span.start),
        Storage::Automatic => repeated_fault(before, signature, name.span.start),
    }
}

// The fault of the declarator itself; `of` is its type.
#[tactic(auto, using(types_scopes::proofs::Squeezed::joined_listed, types_scopes::proofs::Squeezed::joined_leasts))]
fn declarator_fault(
    scope: &Scope<'_>,
    storage: Storage,
    name: &Identifier<'_>,
    gives: &Option<CType>,
    count: usize,
    before: &Earlier,
    of: &Option<Arc<Signature>>,
    value: Option<&Initializer<'_>>,
) -> Option<Fault>
    requires { (f : Option types.Signature) (at : ℕ)
        → declarations.repeated_faults (meaning_of_earlier before.now) f at
        ≡ declarations.repeated_faults
        (scopes.meaning_here (name_of name.now) (scope_of scope.now)) f at }
    ensures { result ≡ least_of (
        declarations.again_faults (storage_from storage) (name_of name.now) (signature_in of.now)
        (scope_of scope.now)
        ++ (declarations.function_faults (name_of name.now) (option_map type_of gives.now) count
        (signature_in of.now)
        ++ declarations.function_form_faults (storage_from storage)
        (option_map units.initializer_of (option_copied value.entry)) name.now.span.start)) }
{
    let again = again_fault(scope, storage, name, before, of);
    let function = function_fault(name, gives, count, of);
    let form = form_fault(storage, value, name.span.start);
    lesser(again, lesser(function, form))
}

fn unless(fault: Option<Fault>, signature: Option<Arc<Signature>>) -> Option<Arc<Signature>>
    ensures { (fs : List Fault) → fault ≡ least_of fs
        → signature_in result ≡ unless_faulty fs (signature_in signature) }
{
    unless_fault(fault, signature)
}

fn function_meaning(
    storage: Storage,
    signature: Option<Arc<Signature>>,
    before: &Earlier,
) -> Meaning
    ensures { meaning_of result ≡ declarations.function_meaning (storage_from storage)
        (signature_in signature) (meaning_of_earlier before.now) }
{
    match storage {
        Storage::Typedef => {
            unused(signature);
            Meaning::Typedef { of: None }
        }
        Storage::Static => Meaning::Function {
            signature,
            has_body: before.has_body(),
        },
        Storage::Automatic => Meaning::Function {
            signature,
            has_body: before.has_body(),
        },
    }
}

/// Declares a function by the type of its specifiers and its parameters, before its initializer,
/// which it may not have. Its first fault.
pub fn begin_function<'a>(
    alloc: Global,
    scope: &mut Scope<'a>,
    storage: Storage,
    name: &Identifier<'a>,
    gives: &Option<CType>,
    parameters: &Parameters,
    value: Option<&Initializer<'_>>,
) -> Result<Option<Fault>, AllocError>
    ensures { IfOk result (λ r. (u : scopes.Scope) → begun r (scope_of scope.new) ≡ squeezed_begun
        (function_begun (storage_from storage) (name_of name.now) (option_map type_of gives.now)
        (listed_parameters parameters.now u)
        (option_map units.initializer_of (option_copied value.entry)) (scope_of scope.old))) }
{
    let count = parameters.kinds.len();
    let Ok(of) = signature(alloc, gives, &parameters.kinds) else {
        return Err(AllocError);
    };
    match declared_before(scope.meaning_here(name)) {
        Ok(before) => {
            let own = declarator_fault(scope, storage, name, gives, count, &before, &of, value);
            let meaning = function_meaning(storage, unless(own, of), &before);
            drop(before);
            match scope.declare(name, meaning) {
                Ok(()) => Ok(after(parameters.fault, own)),
                Err(error) => Err(error),
            }
        }
        Err(error) => {
            unused(of);
            Err(error)
        }
    }
}
