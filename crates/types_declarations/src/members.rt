//! Members of structures (C17 6.7.2.1).
ghost use Rattle.std.specs.Prelude.{◌≡◌, ◌++◌, IfOk, OnOk, Some, length, map, option_map};
ghost use Rattle.mc_tree.specs.Views.{name_of};
ghost use Rattle.types_rules.specs.Declarators as declarator_rules;
ghost use Rattle.types_rules.specs.Declarators.{cells_of_members};
ghost use Rattle.types_faults.specs.Faults.{least_of};
ghost use Rattle.types_rules.specs.Limits as limit;
ghost use Rattle.types_rules.specs.Scopes as scopes;
ghost use Rattle.types_scopes.specs.Listed.{listed_of};
ghost use Rattle.types_scopes.specs.Types.{type_of};
ghost use Rattle.types_scopes.specs.Views.{scope_of, structure_of};
ghost use Rattle.types_declarations.specs.Declarations.{lengths_in, listed_members, listed_parameters, squeezed_listed, written};
ghost use Rattle.types_scopes.specs.Found.{judged_of};
ghost use Rattle.types_faults.specs.Kept.{listed};

use crate::declarators::{absent_fault, declared_type, incomplete_fault};
use crate::faults::{first_fault, unless};
use crate::parameters::Parameters;
use mc_tree::{ArrayLength, Identifier};
use std::alloc::{AllocError, Global};
use types_faults::{Fault, FaultKind, fault_where, lesser};
use types_scopes::found::Judged;
use types_scopes::lists::unused;
use types_scopes::{
    CType, Members, Scope, Structure, cells, counted_nesting, is_large_member, layout,
};

// The fault of a member of this type that passes a limit, after the members before it.
#[tactic(auto, using(types_scopes::proofs::Counted::passed_after_counted))]
fn member_limit_fault(
    members: &Members<'_>,
    structures: &[Structure<'_>],
    of: &Option<CType>,
    at: u32,
) -> Option<Fault>
    ensures { result ≡ least_of (limit.member_limit_faults
        (cells_of_members (map listed_of members.now)) (map structure_of structures.now)
        (option_map type_of of.now) at) }
{
    match of {
        Some(of) => fault_where(
            is_large_member(members.cells(), structures, of),
            FaultKind::Limit,
            at,
        ),
        None => None,
    }
}

// The fault of a member that has no number, after the members before it.
fn member_count_fault(members: &Members<'_>, at: u32) -> Option<Fault>
    ensures { result
        ≡ least_of (limit.member_count_faults (length (map listed_of members.now)) at) }
{
    fault_where(members.len() >= u32::MAX as usize, FaultKind::Limit, at)
}

// The fault of a member, after the members before it; `before` is that of its lengths.
#[tactic(auto, using(types_scopes::proofs::Squeezed::joined_listed, types_scopes::proofs::Squeezed::joined_leasts))]
fn member_fault(
    structures: &[Structure<'_>],
    before: Option<Fault>,
    name: &Identifier<'_>,
    lengths: &[ArrayLength<'_>],
    base: &Option<CType>,
    of: &Option<CType>,
    members: &Members<'_>,
) -> Option<Fault>
    ensures { result ≡ least_of (listed before
        ++ declarator_rules.declared_member_faults (name_of name.now)
        (written lengths.now) (option_map type_of base.now) (option_map type_of of.now)
        (map listed_of members.now) (map structure_of structures.now)) }
{
    let at = name.span.start;
    let count = member_count_fault(members, at);
    let limit = member_limit_fault(members, structures, of, at);
    let incomplete = incomplete_fault(structures, base, at);
    let absent = absent_fault(lengths, None, at);
    let again = fault_where(members.has(name.text), FaultKind::Redeclared, at);
    lesser(
        before,
        lesser(
            again,
            lesser(absent, lesser(incomplete, lesser(limit, count))),
        ),
    )
}

// A member of this type, after the others.
fn push_typed<'a>(
    alloc: Global,
    structures: &[Structure<'a>],
    name: &Identifier<'a>,
    of: CType,
    members: &mut Members<'a>,
) -> Result<(), AllocError>
    ensures { OnOk result (map listed_of members.new
        ≡ declarator_rules.with_member (name_of name.now)
        (Some (type_of of)) (map listed_of members.old) (map structure_of structures.now)) }
{
    let count = cells(structures, &of);
    let nesting = counted_nesting(structures, &of);
    let layout = layout(alloc, structures, &of)?;
    members.push(name.text, Some(of), Some(layout), count, nesting)
}

// A member, after the others.
fn push_member<'a>(
    alloc: Global,
    structures: &[Structure<'a>],
    name: &Identifier<'a>,
    of: Option<CType>,
    members: &mut Members<'a>,
) -> Result<(), AllocError>
    ensures { OnOk result (map listed_of members.new
        ≡ declarator_rules.with_member (name_of name.now)
        (option_map type_of of) (map listed_of members.old) (map structure_of structures.now)) }
{
    match of {
        Some(of) => push_typed(alloc, structures, name, of, members),
        None => members.push(name.text, None, None, 0, 1),
    }
}

/// A member of a type by its specifiers, after the members so far; `given` are its lengths.
pub fn member<'a>(
    alloc: Global,
    scope: &Scope<'a>,
    base: &Option<CType>,
    name: &Identifier<'a>,
    lengths: &[ArrayLength<'_>],
    given: Judged<Vec<u32>>,
    members: &mut Members<'a>,
) -> Result<Option<Fault>, AllocError>
    ensures { IfOk result (λ r. listed_members r members.new (scope_of scope.now)
        ≡ squeezed_listed (declarator_rules.member_listed (option_map type_of base.now)
        (name_of name.now)
        (written lengths.now) (map listed_of members.old)
        (judged_of lengths_in given (scope_of scope.now)))) }
{
    let of = declared_type(alloc, lengths, &given.value, None, base);
    unused(given.value);
    let Ok(of) = of else {
        return Err(AllocError);
    };
    let fault = member_fault(
        &scope.structures,
        given.fault,
        name,
        lengths,
        base,
        &of,
        members,
    );
    match push_member(alloc, &scope.structures, name, unless(fault, of), members) {
        Ok(()) => Ok(fault),
        Err(error) => Err(error),
    }
}

// The fault of a function among the members, after those before it.
fn function_member_fault(name: &Identifier<'_>, members: &Members<'_>) -> Option<Fault>
    ensures { result ≡ least_of (declarator_rules.function_member_faults (name_of name.now)
        (map listed_of members.now)) }
{
    let at = name.span.start;
    let own = Fault {
        kind: FaultKind::Mismatch,
        at,
    };
    first_fault(
        fault_where(members.has(name.text), FaultKind::Redeclared, at),
        Some(own),
    )
}

/// A function among the members, where none may be.
pub fn function_member<'a>(
    alloc: Global,
    scope: &Scope<'a>,
    name: &Identifier<'a>,
    parameters: &Parameters,
    members: &mut Members<'a>,
) -> Result<Option<Fault>, AllocError>
    ensures { IfOk result (λ r. (u : scopes.Scope)
        → listed_members r members.new (scope_of scope.now)
        ≡ squeezed_listed (declarator_rules.function_member_listed (name_of name.now)
        (map listed_of members.old)
        (listed_parameters parameters.now u) (scope_of scope.now))) }
{
    let own = function_member_fault(name, members);
    match push_member(alloc, &scope.structures, name, None, members) {
        Ok(()) => Ok(first_fault(parameters.fault, own)),
        Err(error) => Err(error),
    }
}
