//! Faults of objects and typedef names themselves (C17 6.7).
ghost use Rattle.std.specs.Prelude.{◌≡◌, OnOk, option_map, option_copied};
ghost use Rattle.mc_tree.specs.Units as units;
ghost use Rattle.mc_tree.specs.Views.{name_of};
ghost use Rattle.types_rules.specs.Declarations as declarations;
ghost use Rattle.types_faults.specs.Faults.{least_of, unless_faulty};
ghost use Rattle.types_scopes.specs.Types.{type_of};
ghost use Rattle.types_scopes.specs.Views.{meaning_of, scope_of};
ghost use Rattle.types_declarations.specs.Declarations.{written};
ghost use Rattle.types_faults.specs.Kept.{listed};

use crate::declarators::{
    absent_fault, incomplete_fault, misnamed_fault, object_limit_fault, redeclared_fault,
};
use crate::storage::has_initializer;
use mc_tree::{ArrayLength, Identifier, Initializer};
use std::alloc::AllocError;
use types_faults::{Fault, FaultKind, fault_where, lesser};
use types_scopes::{CType, Meaning, Scope};

/// The fault of an object's declarator itself; `base` is the type of its specifiers.
#[tactic(auto, using(types_scopes::proofs::Squeezed::joined_listed, types_scopes::proofs::Squeezed::joined_leasts))]
pub(crate) fn object_fault(
    scope: &Scope<'_>,
    name: &Identifier<'_>,
    lengths: &[ArrayLength<'_>],
    count: Option<u32>,
    base: &Option<CType>,
    of: &Option<CType>,
) -> Option<Fault>
    ensures { result ≡ least_of (declarations.object_faults (name_of name.now)
        (written lengths.now) count
        (option_map type_of base.now) (option_map type_of of.now) (scope_of scope.now)) }
{
    let at = name.span.start;
    let limit = object_limit_fault(&scope.structures, of, at);
    let incomplete = incomplete_fault(&scope.structures, base, at);
    let absent = absent_fault(lengths, count, at);
    let misnamed = misnamed_fault(scope, name);
    let again = redeclared_fault(scope, name);
    lesser(
        again,
        lesser(misnamed, lesser(absent, lesser(incomplete, limit))),
    )
}

/// The fault of a typedef name itself.
#[tactic(auto, using(types_scopes::proofs::Squeezed::joined_listed, types_scopes::proofs::Squeezed::joined_leasts))]
pub(crate) fn typedef_fault(
    scope: &Scope<'_>,
    name: &Identifier<'_>,
    lengths: &[ArrayLength<'_>],
    value: Option<&Initializer<'_>>,
) -> Option<Fault>
    ensures { result ≡ least_of (declarations.typedef_faults (name_of name.now)
        (written lengths.now)
        (option_map units.initializer_of (option_copied value.entry)) (scope_of scope.now)) }
{
    let at = name.span.start;
    let initialized = fault_where(has_initializer(value), FaultKind::Mismatch, at);
    let absent = absent_fault(lengths, None, at);
    let misnamed = misnamed_fault(scope, name);
    let again = redeclared_fault(scope, name);
    lesser(again, lesser(misnamed, lesser(absent, initialized)))
}

/// The type that the initializer of an object has to fit: none where its declarator has a fault of
/// its own. Takes no memory.
pub fn type_to_fit(own: Option<Fault>, of: &Option<CType>) -> Option<&CType>
    ensures { option_map type_of (option_copied result)
        ≡ unless_faulty (listed own) (option_map type_of of.now) }
{
    match own {
        Some(_) => None,
        None => of.as_ref(),
    }
}

/// A name whose initializer has a fault has no type after it.
pub(crate) fn declare_untyped<'a>(
    scope: &mut Scope<'a>,
    fault: Option<Fault>,
    name: &Identifier<'a>,
    untyped: Meaning,
) -> Result<(), AllocError>
    ensures { OnOk result (scope_of scope.new ≡ declarations.after_initializer (listed fault)
        (name_of name.now) (meaning_of untyped) (scope_of scope.old)) }
{
    match fault {
        Some(_) => scope.declare(name, untyped),
        None => {
            drop(untyped);
            Ok(())
        }
    }
}
