//! Names that are declared (C17 6.7p3), and the types of declarators (6.7.6).
ghost use Rattle.std.specs.Prelude.{◌≡◌, ◌||◌, ◌&&◌, List, map, is_some, IfOk, option_map};
ghost use Rattle.mc_tree.specs.Tree as tree;
ghost use Rattle.mc_tree.specs.Views.{array_length_of, name_of};
ghost use Rattle.types_rules.specs.Declarators as declarators;
ghost use Rattle.types_faults.specs.declared.fault.Fault.{Fault};
ghost use Rattle.types_faults.specs.Faults.{least_of, unless_faulty};
ghost use Rattle.types_rules.specs.Limits as limit;
ghost use Rattle.types_rules.specs.Scopes as scopes;
ghost use Rattle.types_rules.specs.Types as types;
ghost use Rattle.types_rules.specs.Values as values;
ghost use Rattle.types_scopes.specs.Types.{base_of, type_of, length_list};
ghost use Rattle.types_scopes.specs.Views.{scope_of, structure_of};
ghost use Rattle.types_declarations.specs.Declarations.{lengths_in, written};
ghost use Rattle.types_faults.specs.Kept.{listed};

use crate::external::is_external;
use mc_tree::{ArrayLength, Identifier};
use std::alloc::{AllocError, Global};
use types_faults::{Fault, FaultKind, fault_where};
use types_scopes::{CType, Scope, Structure, is_complete, is_too_large};

fn is_declared_here(scope: &Scope<'_>, name: &Identifier<'_>) -> bool
    ensures { result ≡ is_some (scopes.meaning_here (name_of name.now) (scope_of scope.now)) }
{
    match scope.meaning_here(name) {
        Some(_) => true,
        None => false,
    }
}

/// The fault of a name that the innermost block declares already.
pub(crate) fn redeclared_fault(scope: &Scope<'_>, name: &Identifier<'_>) -> Option<Fault>
    ensures least { result
        ≡ least_of (declarators.redeclared_faults (name_of name.now) (scope_of scope.now)) }
    ensures list { listed result ≡ declarators.redeclared_faults (name_of name.now)
        (scope_of scope.now) }
{
    let redeclared = is_declared_here(scope, name);
    fault_where(redeclared, FaultKind::Redeclared, name.span.start)
}

/// The fault of an external function's name that stands for another thing.
pub(crate) fn misnamed_fault(scope: &Scope<'_>, name: &Identifier<'_>) -> Option<Fault>
    ensures least { result ≡ least_of
        (declarators.misnamed_faults (name_of name.now) (scope_of scope.now)) }
    ensures list { listed result ≡ declarators.misnamed_faults (name_of name.now)
        (scope_of scope.now) }
{
    let external = is_external(name);
    fault_where(
        scope.is_file && external,
        FaultKind::Mismatch,
        name.span.start,
    )
}

// ---- lengths

fn is_first_absent(lengths: &[ArrayLength<'_>]) -> bool
    ensures { result ≡ declarators.is_first_absent (written lengths.now) }
{
    match lengths {
        [first, ..] => match first {
            ArrayLength::Absent => true,
            ArrayLength::Given { .. } => false,
        },
        [] => false,
    }
}

fn is_absent(length: &ArrayLength<'_>) -> bool
    ensures { result ≡ declarators.is_first_absent (array_length_of length.now tree.no_lengths) }
{
    match length {
        ArrayLength::Absent => true,
        ArrayLength::Given { .. } => false,
    }
}

#[tactic(auto, using(crate::proofs::Absent::absent_more))]
fn has_absent(lengths: &[ArrayLength<'_>]) -> bool
    ensures { result ≡ declarators.has_absent (written lengths.now) }
{
    let mut found = false;
    let mut left = lengths;
    while let [first, later @ ..] = left {
        if is_absent(first) {
            found = true;
        }
        left = later;
    }
    found
}

/// Whether a length after the first one is absent. Takes no memory.
#[tactic(auto, using(crate::proofs::Absent::later_absent))]
pub(crate) fn is_later_absent(lengths: &[ArrayLength<'_>]) -> bool
    ensures { result ≡ declarators.is_later_absent (written lengths.now) }
{
    match lengths {
        [_, later @ ..] => has_absent(later),
        [] => false,
    }
}

/// The fault of an absent length, where no list tells it.
pub(crate) fn absent_fault(
    lengths: &[ArrayLength<'_>],
    count: Option<u32>,
    at: u32,
) -> Option<Fault>
    ensures least { result ≡ least_of (declarators.absent_faults (written lengths.now) count at) }
    ensures list { listed result ≡ declarators.absent_faults (written lengths.now) count at }
{
    let later = is_later_absent(lengths);
    let first = is_first_absent(lengths);
    let untold = count.is_none();
    fault_where(later || (first && untold), FaultKind::Mismatch, at)
}

// The first length, where it is absent: it stands apart.
fn leading(lengths: &[ArrayLength<'_>], count: Option<u32>) -> Option<Option<u32>>
    ensures { option_map length_list result ≡ declarators.leading (written lengths.now) count }
{
    if is_first_absent(lengths) {
        match count {
            Some(count) => Some(Some(count)),
            None => None,
        }
    } else {
        Some(None)
    }
}

fn array_of(
    alloc: Global,
    front: Option<Option<u32>>,
    given: &Option<Vec<u32>>,
    base: &Option<CType>,
) -> Result<Option<CType>, AllocError>
    ensures { IfOk result (λ r. option_map type_of r ≡ values.lift3 declarators.array_of
        (option_map length_list front) (option_map lengths_in given.now)
        (option_map type_of base.now)) }
{
    match front {
        Some(front) => match given {
            Some(given) => match base {
                Some(base) => match CType::array_of(alloc, front, given, base) {
                    Ok(of) => Ok(Some(of)),
                    Err(error) => Err(error),
                },
                None => Ok(None),
            },
            None => Ok(None),
        },
        None => Ok(None),
    }
}

/// The type of a declarator, from its lengths, those that are given, the length in place of one
/// that is absent, and the type of its specifiers.
pub fn declared_type(
    alloc: Global,
    lengths: &[ArrayLength<'_>],
    given: &Option<Vec<u32>>,
    count: Option<u32>,
    base: &Option<CType>,
) -> Result<Option<CType>, AllocError>
    ensures { IfOk result (λ r. option_map type_of r
        ≡ declarators.declared_type (written lengths.now)
        (option_map lengths_in given.now) count (option_map type_of base.now)) }
{
    if is_later_absent(lengths) {
        return Ok(None);
    }
    array_of(alloc, leading(lengths, count), given, base)
}

// ---- types

/// The fault of an incomplete type where a complete one is asked for.
pub(crate) fn incomplete_fault(
    structures: &[Structure<'_>],
    base: &Option<CType>,
    at: u32,
) -> Option<Fault>
    ensures least { result ≡ least_of
        (declarators.incomplete_faults (map structure_of structures.now)
        (option_map type_of base.now) at) }
    ensures list { listed result ≡ declarators.incomplete_faults (map structure_of structures.now)
        (option_map type_of base.now) at }
{
    match base {
        Some(base) => fault_where(!is_complete(structures, base.base), FaultKind::Mismatch, at),
        None => None,
    }
}

/// Whether an object of the type would pass a limit.
pub(crate) fn is_over_limit(structures: &[Structure<'_>], of: &CType) -> bool
    ensures { result ≡ (types.is_complete (map structure_of structures.now) (base_of of.now.base)
        && limit.is_too_large (map structure_of structures.now) (type_of of.now)) }
{
    let complete = is_complete(structures, of.base);
    let large = is_too_large(structures, of);
    complete && large
}

/// The fault of an object's type that passes a limit.
pub(crate) fn object_limit_fault(
    structures: &[Structure<'_>],
    of: &Option<CType>,
    at: u32,
) -> Option<Fault>
    ensures least { result ≡ least_of (limit.object_limit_faults (map structure_of structures.now)
        (option_map type_of of.now) at) }
    ensures list { listed result ≡ limit.object_limit_faults (map structure_of structures.now)
        (option_map type_of of.now) at }
{
    match of {
        Some(of) => fault_where(is_over_limit(structures, of), FaultKind::Limit, at),
        None => None,
    }
}

/// The same type, where there is one and no fault.
#[tactic(auto, using(crate::proofs::DeclarationFaults::unless_by_least))]
pub(crate) fn copy_unless(
    fault: Option<Fault>,
    of: &Option<CType>,
) -> Result<Option<CType>, AllocError>
    ensures { IfOk result (λ r. (fs : List Fault) → fault ≡ least_of fs
        → option_map type_of r ≡ unless_faulty fs (option_map type_of of.now)) }
{
    match fault {
        Some(_) => Ok(None),
        None => copy_of(of),
    }
}

/// The same type, where there is one.
pub(crate) fn copy_of(of: &Option<CType>) -> Result<Option<CType>, AllocError>
    ensures { IfOk result (λ r. option_map type_of r ≡ option_map type_of of.now) }
{
    match of {
        Some(of) => match of.try_clone() {
            Ok(of) => Ok(Some(of)),
            Err(error) => Err(error),
        },
        None => Ok(None),
    }
}
