//! Objects with automatic storage duration (C17 6.2.4p5).
ghost use Rattle.std.specs.Prelude.{◌≡◌, [], IfOk, List, Some, option_map};
ghost use Rattle.mc_tree.specs.Views.{name_of};
ghost use Rattle.types_faults.specs.declared.fault.Fault.{Fault};
ghost use Rattle.types_faults.specs.Faults.{least_of, unless_faulty};
ghost use Rattle.types_rules.specs.Declarations as declarations;
ghost use Rattle.types_rules.specs.Scopes as scopes;
ghost use Rattle.types_scopes.specs.Types.{type_of};
ghost use Rattle.types_scopes.specs.Views.{scope_of};
ghost use Rattle.types_declarations.specs.Declarations.{optional_of, written};
ghost use Rattle.types_declarations.specs.Halves.{automatic_begun, automatic_ended, counted_cells, counted_value, local_of, squeezed_local, zero_or};
ghost use Rattle.types_scopes.specs.Statements.{declarators_of};
ghost use Rattle.types_scopes.specs.Found.{judged_of};
ghost use Rattle.types_faults.specs.Kept.{listed};
ghost use Rattle.types_scopes.specs.steps.Squeezed.{squeezed_part};

use crate::declarators::copy_unless;
use crate::faults::first_fault;
use crate::objects::{declare_untyped, object_fault};
use crate::parameters::add_object_of;
use mc_tree::{ArrayLength, Identifier};
use mc_typed::{Declarator, Initializer, Slot};
use std::alloc::{AllocError, Global};
use types_faults::{Fault, after};
use types_scopes::found::Judged;
use types_scopes::lists::{list_of, unused_inner};
use types_scopes::{CType, Meaning, Scope};

/// An object that is declared: its fault so far, that of its declarator itself, where it stands,
/// and its cells where they count.
#[derive(Drop)]
pub struct Local {
    pub fault: Option<Fault>,
    pub own: Option<Fault>,
    pub slot: Slot,
    pub cells: Option<u32>,
}

// One more object of the function, where it has a type.
fn add_typed(
    alloc: Global,
    scope: &mut Scope<'_>,
    of: &Option<CType>,
) -> Result<Option<u32>, AllocError>
    ensures cells { IfOk result (λ n. n ≡ option_map counted_cells
        (declarations.layout_counted [] (option_map type_of of.now) (scope_of scope.old))) }
    ensures scope { IfOk result (λ _. scope_of scope.new ≡ scopes.with_counted
        (declarations.layout_counted [] (option_map type_of of.now) (scope_of scope.old))
        (scope_of scope.old)) }
{
    match of {
        Some(of) => match add_object_of(alloc, scope, of) {
            Ok(count) => Ok(Some(count)),
            Err(error) => Err(error),
        },
        None => Ok(None),
    }
}

// One more object of the function, where it has a type and no fault.
fn add_counted(
    alloc: Global,
    scope: &mut Scope<'_>,
    own: Option<Fault>,
    of: &Option<CType>,
) -> Result<Option<u32>, AllocError>
    ensures cells { IfOk result (λ n. n ≡ option_map counted_cells
        (declarations.layout_counted (listed own) (option_map type_of of.now)
        (scope_of scope.old))) }
    ensures scope { IfOk result (λ _. scope_of scope.new ≡ scopes.with_counted
        (declarations.layout_counted (listed own) (option_map type_of of.now) (scope_of scope.old))
        (scope_of scope.old)) }
{
    match own {
        Some(_) => Ok(None),
        None => add_typed(alloc, scope, of),
    }
}

// Declares the name of the next object of the function, with this type unless there is a fault.
fn declare_automatic<'a>(
    scope: &mut Scope<'a>,
    fault: Option<Fault>,
    name: &Identifier<'a>,
    of: &Option<CType>,
) -> Result<Slot, AllocError>
    ensures slot { IfOk result (λ r. r ≡ scopes.next_slot (scope_of scope.old)) }
    ensures scope { IfOk result (λ r. (fs : List Fault) → fault ≡ least_of fs
        → scope_of scope.new ≡ scopes.with_name (name_of name.now)
        (scopes.Automatic r (unless_faulty fs (option_map type_of of.now))) (scope_of scope.old)) }
{
    let slot = scope.next_slot();
    let Ok(of) = copy_unless(fault, of) else {
        return Err(AllocError);
    };
    match scope.declare(name, Meaning::Automatic { slot, of }) {
        Ok(()) => Ok(slot),
        Err(error) => Err(error),
    }
}

/// Declares an object with automatic storage duration, before its initializer; `faults` is the
/// first fault of its lengths, and `base` the type of its specifiers.
pub fn begin_local<'a>(
    alloc: Global,
    scope: &mut Scope<'a>,
    faults: Option<Fault>,
    name: &Identifier<'a>,
    lengths: &[ArrayLength<'_>],
    count: Option<u32>,
    base: &Option<CType>,
    of: &Option<CType>,
) -> Result<Local, AllocError>
    ensures { IfOk result (λ r. local_of r (scope_of scope.new) ≡ squeezed_local
        (automatic_begun (listed faults) (name_of name.now) (written lengths.now) count
        (option_map type_of base.now) (option_map type_of of.now) (scope_of scope.old))) }
{
    let own = object_fault(scope, name, lengths, count, base, of);
    let fault = after(faults, own);
    let Ok(slot) = declare_automatic(scope, fault, name, of) else {
        return Err(AllocError);
    };
    match add_counted(alloc, scope, own, of) {
        Ok(cells) => Ok(Local {
            fault,
            own,
            slot,
            cells,
        }),
        Err(error) => Err(error),
    }
}

// ---- after the initializer

fn zero_or(cells: Option<u32>) -> u64
    ensures { result ≡ zero_or cells }
{
    match cells {
        Some(cells) => cells as u64,
        None => 0,
    }
}

// The object does not count where its initializer has a fault.
fn uncount_after(scope: &mut Scope<'_>, fault: Option<Fault>, cells: Option<u32>)
    ensures { scope_of scope.new
        ≡ declarations.counted_after (listed fault) (zero_or cells) (scope_of scope.old) }
{
    match fault {
        Some(_) => scope.uncount(zero_or(cells)),
        None => {}
    }
}

fn one_declarator(
    alloc: Global,
    slot: Slot,
    cells: u32,
    value: Option<Initializer>,
) -> Result<Option<Vec<Declarator>>, AllocError>
    ensures { IfOk result (λ r. option_map declarators_of r
        ≡ counted_value slot (Some cells) (Some (optional_of value))) }
{
    match list_of(alloc, Declarator { slot, cells, value }) {
        Ok(list) => Ok(Some(list)),
        Err(error) => Err(error),
    }
}

fn local_value(
    alloc: Global,
    slot: Slot,
    cells: Option<u32>,
    value: Option<Option<Initializer>>,
) -> Result<Option<Vec<Declarator>>, AllocError>
    ensures { IfOk result (λ r. option_map declarators_of r
        ≡ counted_value slot cells (option_map optional_of value)) }
{
    match cells {
        Some(cells) => match value {
            Some(value) => one_declarator(alloc, slot, cells, value),
            None => Ok(None),
        },
        None => {
            unused_inner(value);
            Ok(None)
        }
    }
}

/// The object after its initializer.
pub fn end_local<'a>(
    alloc: Global,
    scope: &mut Scope<'a>,
    name: &Identifier<'a>,
    local: Local,
    value: Judged<Option<Initializer>>,
) -> Result<Judged<Vec<Declarator>>, AllocError>
    ensures { IfOk result (λ r. (u : scopes.Scope) → judged_of declarators_of r (scope_of scope.new)
        ≡ squeezed_part (automatic_ended (local_of local u) (name_of name.now)
        (judged_of optional_of value (scope_of scope.old)))) }
{
    let slot = local.slot;
    let inner = value.fault;
    match declare_untyped(scope, inner, name, Meaning::Automatic { slot, of: None }) {
        Ok(()) => {
            uncount_after(scope, inner, local.cells);
            let fault = first_fault(local.fault, inner);
            match local_value(alloc, slot, local.cells, value.value) {
                Ok(value) => Ok(Judged { fault, value }),
                Err(error) => Err(error),
            }
        }
        Err(error) => {
            unused_inner(value.value);
            Err(error)
        }
    }
}
