//! Specifiers, members, enumerators, lengths and parameters (C17 6.7.2, 6.7.6).
ghost use Rattle.std.specs.Prelude.{◌≡◌, ℕ, ℤ, Bool, IfOk, List, [], Option, false, map, option_map};
ghost use Rattle.mc_span.specs.declared.span.Span.{Span};
ghost use Rattle.mc_tree.specs.Tree as source_tree;
ghost use Rattle.mc_tree.specs.Views.{expression_of, lengths_from, array_length_of, name_of, parameter_of, specifier_of, specifiers_from};
ghost use Rattle.name_table.specs.Tables.{Named};
ghost use Rattle.types_rules.specs.Types as types;
ghost use Rattle.types_rules.specs.Scopes as scopes;
ghost use Rattle.types_rules.specs.Values as values;
ghost use Rattle.types_rules.specs.Declarators as declarators;
ghost use Rattle.types_rules.specs.Judgement as judgement;
ghost use Rattle.types_scopes.specs.declared.member.Member.{Member};
ghost use Rattle.types_scopes.specs.Types.{type_of};
ghost use Rattle.types_scopes.specs.Listed.{listed_of};
ghost use Rattle.types_scopes.specs.Prototypes.{counted, counted_of};
ghost use Rattle.types_scopes.specs.Views.{scope_of};
ghost use Rattle.types_scopes.specs.Found.{found_of, judged_of};
ghost use Rattle.types_declarations.specs.Declarations.{lengths_in, listed_members, listed_parameters, number_judged, opened_of, squeezed_listed};
ghost use Rattle.types_scopes.specs.steps.Squeezed.{squeezed, squeezed_part};
ghost use Rattle.mc_types.specs.Loops.{TakesLength, TakesParameter, TakesSpecifier};

use crate::unused;
use mc_tree::{Expression, Identifier, Parameter};
use std::alloc::{AllocError, Global};
use types_declarations::{Opened, Parameters};
use types_faults::Fault;
use types_scopes::found::{Found, Judged};
use types_scopes::{CType, Members, Objects, Scope};

/// Specifiers, and one more after them.
pub(crate) fn specifiers(
    found: Judged<CType>,
    more: Result<Judged<CType>, AllocError>,
) -> Result<Judged<CType>, AllocError>
    ensures { (x : values.Judged types.CType) (first last : scopes.Scope)
        → IfOk more (λ y. judged_of type_of y last ≡ squeezed_part x)
        → IfOk result (λ r. TakesSpecifier x found first r last) }
{
    match more {
        Ok(more) => Ok(types_declarations::specifiers(found, more)),
        Err(error) => {
            drop(found);
            Err(error)
        }
    }
}

/// A structure with its list of members (C17 6.7.2.1).
#[inline(never)]
pub(crate) fn structure<'a>(
    alloc: Global,
    scope: &mut Scope<'a>,
    opened: Opened,
    fault: Result<Option<Fault>, AllocError>,
    members: Members<'a>,
) -> Result<Judged<CType>, AllocError>
    ensures { (alone : Bool) (tag : Option source_tree.Name) (all : source_tree.Members)
        (span : Span)
        (first next : scopes.Scope)
        → opened_of opened next ≡ declarators.opened tag first
        → IfOk fault (λ f. listed_members f members.entry (scope_of scope.old)
        ≡ squeezed_listed (judgement.judge_members all [] next))
        → IfOk result (λ r. judged_of type_of r (scope_of scope.new)
        ≡ squeezed_part (judgement.judge_specifier alone (source_tree.Structure tag all span)
        first)) }
{
    match fault {
        Ok(fault) => types_declarations::close_structure(alloc, scope, opened, fault, members),
        Err(error) => {
            drop(opened);
            drop(members);
            Err(error)
        }
    }
}

/// The members of one declaration.
#[inline(never)]
pub(crate) fn member(
    of: Judged<CType>,
    fault: Result<Option<Fault>, AllocError>,
) -> Result<Option<Fault>, AllocError>
    ensures { (all : source_tree.Specifiers) (list : source_tree.Declarators) (span : Span)
        (before : List types.Member) (members : List (Named Member))
        (first next last : scopes.Scope)
        → judged_of type_of of next
        ≡ squeezed_part (judgement.typed_by span.start all
        (judgement.judge_specifiers false all first))
        → IfOk fault (λ f. listed_members f members last ≡ squeezed_listed
        (judgement.judge_declarators (option_map type_of of.value) list before next))
        → IfOk result (λ r. listed_members r members last
        ≡ squeezed_listed (judgement.judge_member (source_tree.member all list span) before
        first)) }
{
    let before = of.fault;
    drop(of);
    match fault {
        Ok(fault) => Ok(types_declarations::first_fault(before, fault)),
        Err(error) => Err(error),
    }
}

/// A function's declarator, which declares no member.
#[inline(never)]
pub(crate) fn function_member<'a>(
    alloc: Global,
    scope: &Scope<'a>,
    name: &Identifier<'a>,
    found: Result<Parameters, AllocError>,
    members: &mut Members<'a>,
) -> Result<Option<Fault>, AllocError>
    ensures { (base : Option types.CType) (stars : ℕ) (all : source_tree.Parameters) (span : Span)
        (first : scopes.Scope)
        → IfOk found (λ y. (u : scopes.Scope) → listed_parameters y u
        ≡ squeezed_listed (record (judgement.judge_parameters all (scopes.prototype first))
        { scope = u }))
        → IfOk found (λ _. scope_of scope.now ≡ first)
        → IfOk result (λ r. listed_members r members.new (scope_of scope.now)
        ≡ squeezed_listed (judgement.judge_declarator base
        (source_tree.function stars (name_of name.now) all span)
        (map listed_of members.old) first)) }
{
    match found {
        Ok(found) => {
            let fault = types_declarations::function_member(alloc, scope, name, &found, members);
            drop(found);
            fault
        }
        Err(error) => Err(error),
    }
}

/// An enumerator with a value of its own (C17 6.7.2.2); the value of the next one.
#[inline(never)]
pub(crate) fn valued_enumerator<'a>(
    scope: &mut Scope<'a>,
    name: &Identifier<'a>,
    tree: &Expression<'_>,
    found: Result<Found, AllocError>,
) -> Result<Judged<i128>, AllocError>
    ensures { (value : Option ℤ) (first : scopes.Scope)
        → IfOk found (λ y. found_of y (scope_of scope.old)
        ≡ squeezed (judgement.judge (expression_of tree.now) first))
        → IfOk result (λ r. number_judged r (scope_of scope.new)
        ≡ squeezed_part (judgement.judge_enumerator
        (source_tree.valued_enumerator (name_of name.now) (expression_of tree.now)) value first)) }
{
    match found {
        Ok(found) => {
            let at = tree.span().start;
            let next = types_declarations::valued_enumerator(scope, name, at, &found);
            unused::found(found);
            next
        }
        Err(error) => Err(error),
    }
}

/// Lengths of an array, and one more (C17 6.7.6.2).
pub(crate) fn more_lengths(
    list: Judged<Vec<u32>>,
    tree: &Expression<'_>,
    found: Result<Found, AllocError>,
) -> Result<Judged<Vec<u32>>, AllocError>
    ensures { (first last : scopes.Scope)
        → IfOk found (λ y. found_of y last
        ≡ squeezed (judgement.judge (expression_of tree.now) first))
        → IfOk result (λ r.
        TakesLength (source_tree.given_length (expression_of tree.now)) list first r last) }
{
    match found {
        Ok(found) => {
            let list = types_declarations::more_lengths(list, tree.span().start, &found);
            unused::found(found);
            list
        }
        Err(error) => {
            drop(list);
            Err(error)
        }
    }
}

/// Parameters, and one more after them.
pub(crate) fn parameters(
    list: Parameters,
    more: Result<Parameters, AllocError>,
) -> Result<Parameters, AllocError>
    ensures { (x : declarators.Listed (Option types.ParameterKind)) (first last : scopes.Scope)
        → IfOk more (λ y. listed_parameters y last ≡ squeezed_listed x)
        → IfOk result (λ r. TakesParameter x list first r last) }
{
    match more {
        Ok(more) => types_declarations::join_parameters(list, more),
        Err(error) => {
            drop(list);
            Err(error)
        }
    }
}

/// A parameter of this type (C17 6.7.6.3).
pub(crate) fn parameter<'a>(
    alloc: Global,
    scope: &mut Scope<'a>,
    before: Objects,
    tree: &Parameter<'a>,
    of: Judged<CType>,
    given: Result<Judged<Vec<u32>>, AllocError>,
) -> Result<Parameters, AllocError>
    ensures { let all = specifiers_from (map specifier_of tree.now.specifiers.items) in
        let list = lengths_from (map array_length_of tree.now.lengths.items) in
        (first next : scopes.Scope)
        → counted_of before ≡ counted first
        → judged_of type_of of next
        ≡ squeezed_part (judgement.typed_by tree.now.span.start all
        (judgement.judge_specifiers false all first))
        → IfOk given (λ y. judged_of lengths_in y (scope_of scope.old)
        ≡ squeezed_part (judgement.judge_lengths list next))
        → IfOk result (λ r. listed_parameters r (scope_of scope.new)
        ≡ squeezed_listed (judgement.judge_parameter (parameter_of tree.now) first)) }
{
    match given {
        Ok(given) => {
            let name = &tree.name;
            let at = types_declarations::name_start(name, tree.span);
            let lengths = &tree.lengths;
            let found = types_declarations::parameter(
                alloc, scope, before, name, at, lengths, of.fault, &of.value, given,
            );
            drop(of);
            found
        }
        Err(error) => {
            drop(of);
            Err(error)
        }
    }
}
