//! Objects with static storage duration (C17 6.2.4p3).
ghost use Rattle.std.specs.Prelude.{◌≡◌, ◌++◌, [], ◌||◌, nat_le, length, IfOk, OnOk, Some, None, option_map};
ghost use Rattle.mc_tree.specs.Views.{name_of};
ghost use Rattle.mc_limits.specs.Limits.{most_static_cells};
ghost use Rattle.mc_typed.specs.Layout as sizes;
ghost use Rattle.types_faults.specs.declared.fault.FaultKind.TheVariants.{Limit};
ghost use Rattle.types_rules.specs.Declarations as declarations;
ghost use Rattle.types_rules.specs.Profile.{counted, most_numbered};
ghost use Rattle.types_faults.specs.Faults.{fault_if};
ghost use Rattle.types_rules.specs.Limits as limit;
ghost use Rattle.types_rules.specs.Scopes as scopes;
ghost use Rattle.types_rules.specs.Types as types;
ghost use Rattle.types_rules.specs.Values as values;
ghost use Rattle.types_scopes.specs.Types.{type_of};
ghost use Rattle.types_scopes.specs.Views.{scope_of};
ghost use Rattle.types_declarations.specs.Declarations.{optional_of, written};
ghost use Rattle.types_declarations.specs.Halves.{static_begun, static_ended, squeezed_static, stored_of};
ghost use Rattle.types_scopes.specs.Statements.{declarators_of};
ghost use Rattle.types_scopes.specs.Found.{judged_of};
ghost use Rattle.types_faults.specs.Kept.{listed};
ghost use Rattle.types_scopes.specs.steps.Squeezed.{squeezed_part};

use crate::declarators::copy_unless;
use crate::faults::first_fault;
use crate::objects::{declare_untyped, object_fault};
use mc_limits::MOST_STATIC_CELLS;
use mc_tree::{ArrayLength, Identifier};
use mc_typed::{Declarator, Initializer, Slot};
use std::alloc::{AllocError, Global};
use types_faults::{Fault, FaultKind, after, fault_where};
use types_scopes::found::Judged;
use types_scopes::initial::{values_of, zeros};
use types_scopes::lists::unused_inner;
use types_scopes::{CType, Meaning, Scope, cells, is_passed_with, layout};

/// An object that is declared: its fault so far, that of its declarator itself, and where it
/// stands.
#[derive(Drop)]
pub struct Stored {
    pub fault: Option<Fault>,
    pub own: Option<Fault>,
    pub slot: Slot,
}

/// Declares an object with static storage duration, before its initializer; `faults` is the first
/// fault of its lengths, and `base` the type of its specifiers.
pub fn begin_static<'a>(
    scope: &mut Scope<'a>,
    faults: Option<Fault>,
    name: &Identifier<'a>,
    lengths: &[ArrayLength<'_>],
    count: Option<u32>,
    base: &Option<CType>,
    of: &Option<CType>,
) -> Result<Stored, AllocError>
    ensures { IfOk result (λ r. stored_of r (scope_of scope.new) ≡ squeezed_static
        (static_begun (listed faults) (name_of name.now) (written lengths.now) count
        (option_map type_of base.now) (option_map type_of of.now) (scope_of scope.old))) }
{
    let own = object_fault(scope, name, lengths, count, base, of);
    let fault = after(faults, own);
    let slot = scope.next_static();
    let Ok(of) = copy_unless(fault, of) else {
        return Err(AllocError);
    };
    match scope.declare(name, Meaning::Static { slot, of }) {
        Ok(()) => Ok(Stored { fault, own, slot }),
        Err(error) => Err(error),
    }
}

// ---- after the initializer

// The values of an object with so many cells.
fn initial_values(
    alloc: Global,
    count: u32,
    value: &Option<Initializer>,
) -> Result<Vec<i128>, AllocError>
    ensures { IfOk result (λ r. (u : sizes.ObjectType) → count ≡ counted (sizes.cells u)
        → r.items ≡ declarations.initial_values u (optional_of value.now)) }
{
    match value {
        Some(value) => values_of(alloc, value),
        None => zeros(alloc, count),
    }
}

// Adds an object of the type with these values.
fn add_static(
    alloc: Global,
    scope: &mut Scope<'_>,
    of: &CType,
    count: u32,
    value: &Option<Initializer>,
) -> Result<(), AllocError>
    requires { count ≡ types.cells_of (scope_of scope.old).structures (type_of of.now) }
    ensures { OnOk result (scope_of scope.new ≡ scopes.with_static
        (types.layout_of (scope_of scope.old).structures (type_of of.now))
        (declarations.initial_values (types.layout_of (scope_of scope.old).structures
        (type_of of.now))
        (optional_of value.now)) (scope_of scope.old)) }
{
    let Ok(initial) = initial_values(alloc, count, value) else {
        return Err(AllocError);
    };
    match layout(alloc, &scope.structures, of) {
        Ok(object) => scope.add_static(object, count, initial),
        Err(error) => {
            drop(initial);
            Err(error)
        }
    }
}

// The fault of an object with so many cells that passes the limit of all of them, or has no number.
fn sum_fault(scope: &Scope<'_>, at: u32, count: u32) -> Option<Fault>
    ensures { listed result ≡ fault_if
        (limit.is_passed_with most_static_cells (scope_of scope.now).static_cells count
        || nat_le most_numbered (length (scope_of scope.now).statics)) Limit at }
{
    let passed = is_passed_with(MOST_STATIC_CELLS, scope.static_cells, count);
    fault_where(passed || scope.is_full_of_statics(), FaultKind::Limit, at)
}

/// The first fault of an object whose type and initializer have none, but perhaps its cells; the
/// object is added.
#[tactic(auto, using(types_scopes::proofs::Counted::passed_counted))]
fn add_faultless<'a>(
    alloc: Global,
    scope: &mut Scope<'a>,
    name: &Identifier<'a>,
    slot: Slot,
    of: &CType,
    value: &Option<Initializer>,
) -> Result<Option<Fault>, AllocError>
    ensures fault { IfOk result (λ r. listed r ≡ declarations.static_faults_with name.now.span.start
        (Some (types.layout_of (scope_of scope.old).structures (type_of of.now)))
        (Some (optional_of value.now)) (scope_of scope.old)) }
    ensures scope { IfOk result (λ r. scope_of scope.new ≡ declarations.static_scope
        (Some (types.layout_of (scope_of scope.old).structures (type_of of.now)))
        (Some (optional_of value.now))
        (declarations.after_initializer (listed r) (name_of name.now) (scopes.Stored slot None)
        (scope_of scope.old))) }
{
    let count = cells(&scope.structures, of);
    let sum = sum_fault(scope, name.span.start, count);
    let Ok(()) = declare_untyped(scope, sum, name, Meaning::Static { slot, of: None }) else {
        return Err(AllocError);
    };
    match add_static(alloc, scope, of, count, value) {
        Ok(()) => Ok(sum),
        Err(error) => Err(error),
    }
}

// After an initializer with this fault an object is not added.
fn end_uncounted<'a>(
    scope: &mut Scope<'a>,
    name: &Identifier<'a>,
    stored: Stored,
    inner: Option<Fault>,
) -> Result<Judged<Vec<Declarator>>, AllocError>
    ensures judged { IfOk result (λ r. judged_of declarators_of r (scope_of scope.new)
        ≡ squeezed_part (values.judged (listed stored.fault ++ (listed inner ++ [])) None
        (declarations.after_initializer (listed inner ++ []) (name_of name.now)
        (scopes.Stored stored.slot None)
        (scope_of scope.old)))) }
{
    let slot = stored.slot;
    match declare_untyped(scope, inner, name, Meaning::Static { slot, of: None }) {
        Ok(()) => Ok(Judged {
            fault: first_fault(stored.fault, inner),
            value: None,
        }),
        Err(error) => Err(error),
    }
}

// An object whose declarator and initializer have no fault is added.
fn end_counted<'a>(
    alloc: Global,
    scope: &mut Scope<'a>,
    name: &Identifier<'a>,
    of: &CType,
    stored: Stored,
    value: &Option<Initializer>,
) -> Result<Judged<Vec<Declarator>>, AllocError>
    requires { stored.own ≡ None }
    ensures { IfOk result (λ r. (u : scopes.Scope) → judged_of declarators_of r (scope_of scope.new)
        ≡ squeezed_part (static_ended (stored_of stored u) (name_of name.now)
        (Some (type_of of.now))
        (values.judged [] (Some (optional_of value.now)) (scope_of scope.old)))) }
{
    match add_faultless(alloc, scope, name, stored.slot, of, value) {
        Ok(sum) => Ok(Judged {
            fault: first_fault(stored.fault, sum),
            value: Some(Vec::new(alloc)),
        }),
        Err(error) => Err(error),
    }
}

// The object after an initializer without a fault.
fn end_faultless<'a>(
    alloc: Global,
    scope: &mut Scope<'a>,
    name: &Identifier<'a>,
    of: &Option<CType>,
    stored: Stored,
    value: &Option<Option<Initializer>>,
) -> Result<Judged<Vec<Declarator>>, AllocError>
    ensures { IfOk result (λ r. (u : scopes.Scope) → judged_of declarators_of r (scope_of scope.new)
        ≡ squeezed_part (static_ended (stored_of stored u) (name_of name.now)
        (option_map type_of of.now)
        (values.judged [] (option_map optional_of value.now) (scope_of scope.old)))) }
{
    match stored.own {
        Some(_) => end_uncounted(scope, name, stored, None),
        None => match of {
            Some(of) => match value {
                Some(value) => end_counted(alloc, scope, name, of, stored, value),
                None => end_uncounted(scope, name, stored, None),
            },
            None => end_uncounted(scope, name, stored, None),
        },
    }
}

// The object after an initializer with or without this fault.
fn end_stored<'a>(
    alloc: Global,
    scope: &mut Scope<'a>,
    name: &Identifier<'a>,
    of: &Option<CType>,
    stored: Stored,
    inner: Option<Fault>,
    value: &Option<Option<Initializer>>,
) -> Result<Judged<Vec<Declarator>>, AllocError>
    ensures { IfOk result (λ r. (u : scopes.Scope) → judged_of declarators_of r (scope_of scope.new)
        ≡ squeezed_part (static_ended (stored_of stored u) (name_of name.now)
        (option_map type_of of.now)
        (values.judged (listed inner) (option_map optional_of value.now) (scope_of scope.old)))) }
{
    match inner {
        Some(_) => match stored.own {
            Some(_) => end_uncounted(scope, name, stored, inner),
            None => end_uncounted(scope, name, stored, inner),
        },
        None => end_faultless(alloc, scope, name, of, stored, value),
    }
}

/// The object after its initializer: one without a fault is added.
pub fn end_static<'a>(
    alloc: Global,
    scope: &mut Scope<'a>,
    name: &Identifier<'a>,
    of: &Option<CType>,
    stored: Stored,
    value: Judged<Option<Initializer>>,
) -> Result<Judged<Vec<Declarator>>, AllocError>
    ensures { IfOk result (λ r. (u : scopes.Scope) → judged_of declarators_of r (scope_of scope.new)
        ≡ squeezed_part (static_ended (stored_of stored u) (name_of name.now)
        (option_map type_of of.now) (judged_of optional_of value (scope_of scope.old)))) }
{
    let ended = end_stored(alloc, scope, name, of, stored, value.fault, &value.value);
    unused_inner(value.value);
    ended
}
