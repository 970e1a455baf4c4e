//! Parameters (C17 6.7.6.3).
ghost use Rattle.std.specs.Prelude.{◌≡◌, ◌++◌, [], ◌∷◌, IfOk, OnOk, Some, map, option_map};
ghost use Rattle.mc_tree.specs.Views.{name_of, tag_of};
ghost use Rattle.types_rules.specs.Declarators as declarator_rules;
ghost use Rattle.types_faults.specs.Faults.{least_of, unless_faulty};
ghost use Rattle.types_rules.specs.Limits as limit;
ghost use Rattle.types_rules.specs.Scopes as scopes;
ghost use Rattle.types_rules.specs.Types as types;
ghost use Rattle.types_scopes.specs.Prototypes.{counted_of, cut_to};
ghost use Rattle.types_scopes.specs.Types.{kind_of, type_of};
ghost use Rattle.types_scopes.specs.Views.{meaning_of, scope_of, structure_of};
ghost use Rattle.types_declarations.specs.Declarations.{kind_found, lengths_in, listed_parameters, squeezed_listed, written};
ghost use Rattle.types_scopes.specs.Found.{judged_of};
ghost use Rattle.types_faults.specs.Kept.{listed};

use crate::declarators::{
    copy_of, declared_type, incomplete_fault, is_later_absent, is_over_limit, redeclared_fault,
};
use crate::faults::{first_fault, unless};
use crate::values::unless_fault;
use mc_tree::{ArrayLength, Identifier};
use mc_typed::Span;
use std::alloc::{AllocError, Global};
use types_faults::{Fault, FaultKind, fault_where, lesser};
use types_scopes::found::Judged;
use types_scopes::lists::{joined, list_of, unused, where_done};
use types_scopes::{
    CType, Meaning, Objects, ParameterKind, Scope, Structure, cells, is_complete, layout,
};

/// What is found of parameters: their first fault, and for each what it takes, where that can be
/// told.
#[derive(Drop)]
pub struct Parameters {
    pub fault: Option<Fault>,
    pub kinds: Vec<Option<ParameterKind>>,
}

/// No parameters. Takes no memory.
pub fn no_parameters(alloc: Global) -> Parameters
    ensures { (s : scopes.Scope) → listed_parameters result s ≡ declarator_rules.listed_none s }
{
    Parameters {
        fault: None,
        kinds: Vec::new(alloc),
    }
}

/// Where a parameter starts for its faults: at its name, where it has one.
pub fn name_start(name: &Option<Identifier<'_>>, span: Span) -> u32
    ensures { result ≡ declarator_rules.name_start (tag_of name.now) span }
{
    match name {
        Some(name) => name.span.start,
        None => span.start,
    }
}

// ---- what a parameter takes

// An array loses its first length (C17 6.7.6.3p7).
fn adjusted(of: CType) -> ParameterKind
    ensures { kind_of result ≡ declarator_rules.adjusted (type_of of) (type_of of).lengths }
{
    if of.lengths.is_empty() {
        ParameterKind::Value(of.base)
    } else {
        ParameterKind::Array(of.element())
    }
}

fn parameter_kind(
    structures: &[Structure<'_>],
    of: &Option<CType>,
) -> Result<Option<ParameterKind>, AllocError>
    ensures { IfOk result (λ r. option_map kind_of r
        ≡ declarator_rules.parameter_kind (map structure_of structures.now)
        (option_map type_of of.now)) }
{
    match of {
        Some(of) => {
            if is_complete(structures, of.base) {
                match of.try_clone() {
                    Ok(of) => Ok(Some(adjusted(of))),
                    Err(error) => Err(error),
                }
            } else {
                Ok(None)
            }
        }
        None => Ok(None),
    }
}

// ---- faults

fn parameter_name_fault(scope: &Scope<'_>, name: &Option<Identifier<'_>>) -> Option<Fault>
    ensures { result
        ≡ least_of (declarator_rules.parameter_name_faults (tag_of name.now) (scope_of scope.now)) }
{
    match name {
        Some(name) => redeclared_fault(scope, name),
        None => None,
    }
}

fn element_fault(structures: &[Structure<'_>], element: &CType, at: u32) -> Option<Fault>
    ensures { result ≡ least_of (limit.object_limit_faults (map structure_of structures.now)
        (Some (type_of element.now)) at) }
{
    fault_where(is_over_limit(structures, element), FaultKind::Limit, at)
}

fn parameter_limit_fault(
    structures: &[Structure<'_>],
    kind: &Option<ParameterKind>,
    at: u32,
) -> Option<Fault>
    ensures { result ≡ least_of (declarator_rules.parameter_limit_faults
        (map structure_of structures.now)
        (option_map kind_of kind.now) at) }
{
    match kind {
        Some(kind) => match kind {
            ParameterKind::Array(element) => element_fault(structures, element, at),
            ParameterKind::Value(_) => None,
        },
        None => None,
    }
}

// The fault of a parameter; `typed` is that of its specifiers, `before` that of its lengths, and
// `kind` is what it takes.
#[tactic(auto, using(types_scopes::proofs::Squeezed::joined_listed, types_scopes::proofs::Squeezed::joined_leasts))]
fn parameter_fault(
    scope: &Scope<'_>,
    typed: Option<Fault>,
    before: Option<Fault>,
    name: &Option<Identifier<'_>>,
    at: u32,
    lengths: &[ArrayLength<'_>],
    base: &Option<CType>,
    of: &Option<CType>,
    kind: &Option<ParameterKind>,
) -> Option<Fault>
    requires { option_map kind_of kind.now
        ≡ declarator_rules.parameter_kind (scope_of scope.now).structures
        (option_map type_of of.now) }
    ensures { result ≡ least_of (listed typed ++ (listed before ++ declarator_rules.parameter_faults
        (tag_of name.now) at (written lengths.now) (option_map type_of base.now)
        (option_map type_of of.now) (scope_of scope.now))) }
{
    let limit = parameter_limit_fault(&scope.structures, kind, at);
    let incomplete = incomplete_fault(&scope.structures, base, at);
    let absent = fault_where(is_later_absent(lengths), FaultKind::Mismatch, at);
    let again = parameter_name_fault(scope, name);
    let own = lesser(again, lesser(absent, lesser(incomplete, limit)));
    lesser(typed, lesser(before, own))
}

// ---- names and objects

fn parameter_meaning(
    scope: &Scope<'_>,
    of: &Option<CType>,
    kind: &Option<ParameterKind>,
) -> Result<Meaning, AllocError>
    ensures { IfOk result (λ r. meaning_of r
        ≡ declarator_rules.parameter_meaning (option_map type_of of.now)
        (option_map kind_of kind.now) (scope_of scope.now)) }
{
    match kind {
        Some(kind) => match kind {
            ParameterKind::Array(element) => match element.try_clone() {
                Ok(element) => Ok(Meaning::Borrowed {
                    array: scope.arrays,
                    element,
                }),
                Err(error) => Err(error),
            },
            ParameterKind::Value(_) => automatic_meaning(scope, of),
        },
        None => automatic_meaning(scope, of),
    }
}

fn automatic_meaning(scope: &Scope<'_>, of: &Option<CType>) -> Result<Meaning, AllocError>
    ensures { IfOk result (λ r. meaning_of r
        ≡ scopes.Automatic (scopes.next_slot (scope_of scope.now)) (option_map type_of of.now)) }
{
    let slot = scope.next_slot();
    match copy_of(of) {
        Ok(of) => Ok(Meaning::Automatic { slot, of }),
        Err(error) => Err(error),
    }
}

fn declare_parameter_name<'a>(
    scope: &mut Scope<'a>,
    name: &Option<Identifier<'a>>,
    meaning: Meaning,
) -> Result<(), AllocError>
    ensures { OnOk result (scope_of scope.new
        ≡ declarator_rules.with_parameter_name (tag_of name.now)
        (meaning_of meaning) (scope_of scope.old)) }
{
    match name {
        Some(name) => scope.declare(name, meaning),
        None => {
            drop(meaning);
            Ok(())
        }
    }
}

/// One more object of the function, of this type.
pub(crate) fn add_object_of(
    alloc: Global,
    scope: &mut Scope<'_>,
    of: &CType,
) -> Result<u32, AllocError>
    ensures cells { IfOk result (λ n. n
        ≡ types.cells_of (scope_of scope.old).structures (type_of of.now)) }
    ensures scope { IfOk result (λ _. scope_of scope.new ≡ scopes.with_object
        (types.layout_of (scope_of scope.old).structures (type_of of.now)) (scope_of scope.old)) }
{
    let count = cells(&scope.structures, of);
    let Ok(object) = layout(alloc, &scope.structures, of) else {
        return Err(AllocError);
    };
    match scope.add_object(object, count) {
        Ok(()) => Ok(count),
        Err(error) => Err(error),
    }
}

fn add_value(alloc: Global, scope: &mut Scope<'_>, of: &Option<CType>) -> Result<(), AllocError>
    ensures { (b : types.Base) → OnOk result (scope_of scope.new ≡ declarator_rules.with_parameter
        (option_map type_of of.now) (Some (types.ByValue b)) (scope_of scope.old)) }
{
    match of {
        Some(of) => match add_object_of(alloc, scope, of) {
            Ok(_) => Ok(()),
            Err(error) => Err(error),
        },
        None => Ok(()),
    }
}

// The object of a parameter, or one more array.
fn add_parameter(
    alloc: Global,
    scope: &mut Scope<'_>,
    of: &Option<CType>,
    kind: &Option<ParameterKind>,
) -> Result<(), AllocError>
    ensures { OnOk result (scope_of scope.new
        ≡ declarator_rules.with_parameter (option_map type_of of.now)
        (option_map kind_of kind.now) (scope_of scope.old)) }
{
    match kind {
        Some(kind) => match kind {
            ParameterKind::Array(_) => {
                scope.add_array();
                Ok(())
            }
            ParameterKind::Value(_) => add_value(alloc, scope, of),
        },
        None => Ok(()),
    }
}

fn declare_parameter<'a>(
    alloc: Global,
    scope: &mut Scope<'a>,
    name: &Option<Identifier<'a>>,
    of: &Option<CType>,
    kind: &Option<ParameterKind>,
) -> Result<(), AllocError>
    ensures { OnOk result (scope_of scope.new
        ≡ declarator_rules.declared_parameter (tag_of name.now)
        (option_map type_of of.now) (option_map kind_of kind.now) (scope_of scope.old)) }
{
    let Ok(meaning) = parameter_meaning(scope, of, kind) else {
        return Err(AllocError);
    };
    match declare_parameter_name(scope, name, meaning) {
        Ok(()) => add_parameter(alloc, scope, of, kind),
        Err(error) => Err(error),
    }
}

// ---- parameters

fn one_kind(
    alloc: Global,
    kind: Option<ParameterKind>,
) -> Result<Vec<Option<ParameterKind>>, AllocError>
    ensures { IfOk result (λ r. map kind_found r.items ≡ kind_found kind ∷ []) }
{
    list_of(alloc, kind)
}

#[tactic(auto, using(crate::proofs::Lists::unless_mapped))]
fn kind_unless(fault: Option<Fault>, kind: Option<ParameterKind>) -> Option<ParameterKind>
    ensures { option_map kind_of result ≡ unless_faulty (listed fault) (option_map kind_of kind) }
{
    unless_fault(fault, kind)
}

/// A parameter of a type by its specifiers, whose fault this is; `given` are its lengths. The
/// objects of the function are those of before the parameter, and its own.
pub fn parameter<'a>(
    alloc: Global,
    scope: &mut Scope<'a>,
    before: Objects,
    name: &Option<Identifier<'a>>,
    at: u32,
    lengths: &[ArrayLength<'_>],
    fault: Option<Fault>,
    base: &Option<CType>,
    given: Judged<Vec<u32>>,
) -> Result<Parameters, AllocError>
    ensures { IfOk result (λ r. listed_parameters r (scope_of scope.new)
        ≡ squeezed_listed (declarator_rules.parameter_listed (tag_of name.now) at
        (written lengths.now)
        (option_map type_of base.now) (listed fault)
        (judged_of lengths_in given (cut_to (counted_of before) (scope_of scope.old))))) }
{
    scope.cut_objects(before);
    let of = declared_type(alloc, lengths, &given.value, Some(1), base);
    unused(given.value);
    let Ok(of) = of else {
        return Err(AllocError);
    };
    let Ok(kind) = parameter_kind(&scope.structures, &of) else {
        unused(of);
        return Err(AllocError);
    };
    let fault = parameter_fault(
        scope,
        fault,
        given.fault,
        name,
        at,
        lengths,
        base,
        &of,
        &kind,
    );
    let of = unless(fault, of);
    let kind = kind_unless(fault, kind);
    let declared = declare_parameter(alloc, scope, name, &of, &kind);
    unused(of);
    let Ok(kind) = where_done(declared, kind) else {
        return Err(AllocError);
    };
    match one_kind(alloc, kind) {
        Ok(kinds) => Ok(Parameters { fault, kinds }),
        Err(error) => Err(error),
    }
}

/// Parameters, and more after them.
#[tactic(auto, using(crate::proofs::Lists::mapped_joined))]
pub fn join_parameters(list: Parameters, more: Parameters) -> Result<Parameters, AllocError>
    ensures { IfOk result (λ r. (s u : scopes.Scope) → listed_parameters r u
        ≡ squeezed_listed (declarator_rules.joined (listed_parameters list s)
        (listed_parameters more u))) }
{
    let fault = first_fault(list.fault, more.fault);
    match joined(list.kinds, more.kinds) {
        Ok(kinds) => Ok(Parameters { fault, kinds }),
        Err(error) => Err(error),
    }
}
