//! Declarations (C17 6.7).
ghost use Rattle.std.specs.Prelude.{◌≡◌, ℕ, IfOk, map, option_copied, option_map};
ghost use Rattle.mc_span.specs.declared.span.Span.{Span};
ghost use Rattle.mc_tree.specs.Tree as source_tree;
ghost use Rattle.mc_tree.specs.Units as units;
ghost use Rattle.mc_tree.specs.Views.{name_of, declarator_of, parameters_from, parameter_of, specifier_of, specifiers_from};
ghost use Rattle.mc_typed.specs.Views.{initializer_of};
ghost use Rattle.types_rules.specs.Scopes as scopes;
ghost use Rattle.types_rules.specs.Declarators as declarators;
ghost use Rattle.types_rules.specs.Declarations as declarations;
ghost use Rattle.types_scopes.specs.Types.{type_of};
ghost use Rattle.types_scopes.specs.Views.{scope_of};
ghost use Rattle.types_scopes.specs.Found.{judged_of};
ghost use Rattle.types_declarations.specs.Declarations.{listed_parameters, optional_of, squeezed_listed, storage_from, written};
ghost use Rattle.types_scopes.specs.Statements.{declarators_of};
ghost use Rattle.types_faults.specs.Kept.{listed};
ghost use Rattle.types_scopes.specs.steps.Squeezed.{squeezed_part};

use crate::expressions::{lengths, prototype, typed};
use crate::initializers::initializer;
use mc_tree::{ArrayLength, Declaration, Declarator, Identifier, InitDeclarator, Initializer};
use mc_typed as typed_tree;
use std::alloc::{AllocError, Global};
use types_declarations::{Parameters, Storage};
use types_faults::Fault;
use types_scopes::found::Judged;
use types_scopes::{CType, Scope};

/// An initializer, where there is one.
fn optional_initializer<'a>(
    alloc: Global,
    scope: &mut Scope<'a>,
    is_static: bool,
    of: Option<&CType>,
    tree: Option<&Initializer<'a>>,
) -> Result<Judged<Option<typed_tree::Initializer>>, AllocError>
    ensures { IfOk result (λ r. judged_of optional_of r (scope_of scope.new)
        ≡ squeezed_part (declarations.judge_optional_initializer is_static
        (option_map type_of (option_copied of.entry))
        (option_map units.initializer_of (option_copied tree.entry)) (scope_of scope.old))) }
{
    match tree {
        Some(tree) => match initializer(alloc, scope, is_static, of, tree) {
            Ok(found) => Ok(types_declarations::optional_initializer(found)),
            Err(error) => Err(error),
        },
        None => Ok(types_declarations::no_initializer()),
    }
}

/// An object with automatic storage duration. `fault` is of its lengths, `base` the type of its
/// specifiers, and `of` its own.
#[inline(never)]
fn local<'a>(
    alloc: Global,
    scope: &mut Scope<'a>,
    fault: Option<Fault>,
    name: &Identifier<'a>,
    all: &[ArrayLength<'a>],
    base: &Option<CType>,
    of: &Option<CType>,
    value: Option<&Initializer<'a>>,
) -> Result<Judged<Vec<typed_tree::Declarator>>, AllocError>
    ensures { IfOk result (λ r. judged_of declarators_of r (scope_of scope.new)
        ≡ squeezed_part (declarations.automatic_judged (listed fault) (name_of name.now)
        (written all.now)
        (option_map type_of base.now) (option_map type_of of.now)
        (option_map units.initializer_of (option_copied value.entry)) (scope_of scope.old))) }
{
    let count = types_declarations::count_listed(value);
    let begun = types_declarations::begin_local(alloc, scope, fault, name, all, count, base, of)?;
    let fit = types_declarations::type_to_fit(begun.own, of);
    match optional_initializer(alloc, scope, false, fit, value) {
        Ok(value) => types_declarations::end_local(alloc, scope, name, begun, value),
        Err(error) => Err(error),
    }
}

/// An object with static storage duration.
#[inline(never)]
fn stored<'a>(
    alloc: Global,
    scope: &mut Scope<'a>,
    fault: Option<Fault>,
    name: &Identifier<'a>,
    all: &[ArrayLength<'a>],
    base: &Option<CType>,
    of: &Option<CType>,
    value: Option<&Initializer<'a>>,
) -> Result<Judged<Vec<typed_tree::Declarator>>, AllocError>
    ensures { IfOk result (λ r. judged_of declarators_of r (scope_of scope.new)
        ≡ squeezed_part (declarations.static_judged (listed fault) (name_of name.now)
        (written all.now)
        (option_map type_of base.now) (option_map type_of of.now)
        (option_map units.initializer_of (option_copied value.entry)) (scope_of scope.old))) }
{
    let count = types_declarations::count_listed(value);
    let begun = types_declarations::begin_static(scope, fault, name, all, count, base, of)?;
    let fit = types_declarations::type_to_fit(begun.own, of);
    match optional_initializer(alloc, scope, true, fit, value) {
        Ok(value) => types_declarations::end_static(alloc, scope, name, of, begun, value),
        Err(error) => Err(error),
    }
}

/// A typedef name (C17 6.7.8).
#[inline(never)]
fn typedef<'a>(
    alloc: Global,
    scope: &mut Scope<'a>,
    fault: Option<Fault>,
    name: &Identifier<'a>,
    all: &[ArrayLength<'a>],
    base: &Option<CType>,
    of: &Option<CType>,
    value: Option<&Initializer<'a>>,
) -> Result<Judged<Vec<typed_tree::Declarator>>, AllocError>
    ensures { IfOk result (λ r. judged_of declarators_of r (scope_of scope.new)
        ≡ squeezed_part (declarations.typedef_judged (listed fault) (name_of name.now)
        (written all.now)
        (option_map type_of base.now) (option_map type_of of.now)
        (option_map units.initializer_of (option_copied value.entry)) (scope_of scope.old))) }
{
    let begun = types_declarations::begin_typedef(scope, fault, name, all, value, of)?;
    match optional_initializer(alloc, scope, true, None, value) {
        Ok(value) => Ok(types_declarations::end_declared(alloc, begun, value)),
        Err(error) => Err(error),
    }
}

/// A declarator that is no function's (C17 6.7.6.2).
fn object<'a>(
    alloc: Global,
    scope: &mut Scope<'a>,
    storage: Storage,
    base: &Option<CType>,
    name: &Identifier<'a>,
    all: &[ArrayLength<'a>],
    value: Option<&Initializer<'a>>,
) -> Result<Judged<Vec<typed_tree::Declarator>>, AllocError>
    ensures { (stars : ℕ) (span : Span)
        → IfOk result (λ r. judged_of declarators_of r (scope_of scope.new)
        ≡ squeezed_part (declarations.judge_init (storage_from storage)
        (option_map type_of base.now)
        (source_tree.object stars (name_of name.now) (written all.now) span)
        (option_map units.initializer_of (option_copied value.entry)) (scope_of scope.old))) }
{
    let given = lengths(alloc, scope, all)?;
    let count = types_declarations::count_listed(value);
    let of = types_declarations::declared_type(alloc, all, &given.value, count, base)?;
    match storage {
        Storage::Typedef => typedef(alloc, scope, given.fault, name, all, base, &of, value),
        Storage::Static => stored(alloc, scope, given.fault, name, all, base, &of, value),
        Storage::Automatic => local(alloc, scope, given.fault, name, all, base, &of, value),
    }
}

/// A function's declarator (C17 6.7.6.3), from what is found of its parameters.
#[inline(never)]
fn function<'a>(
    alloc: Global,
    scope: &mut Scope<'a>,
    storage: Storage,
    base: &Option<CType>,
    name: &Identifier<'a>,
    parameters: &Parameters,
    value: Option<&Initializer<'a>>,
) -> Result<Judged<Vec<typed_tree::Declarator>>, AllocError>
    ensures { (u : scopes.Scope) → IfOk result (λ r. judged_of declarators_of r (scope_of scope.new)
        ≡ squeezed_part (declarations.function_judged (storage_from storage) (name_of name.now)
        (option_map type_of base.now) (listed_parameters parameters.now u)
        (option_map units.initializer_of (option_copied value.entry)) (scope_of scope.old))) }
{
    let begun = types_declarations::begin_function(
        alloc, scope, storage, name, base, parameters, value,
    )?;
    match optional_initializer(alloc, scope, true, None, value) {
        Ok(value) => Ok(types_declarations::end_declared(alloc, begun, value)),
        Err(error) => Err(error),
    }
}

/// A declarator, perhaps with an initializer.
fn declarator<'a>(
    alloc: Global,
    scope: &mut Scope<'a>,
    storage: Storage,
    base: &Option<CType>,
    tree: &Declarator<'a>,
    value: Option<&Initializer<'a>>,
) -> Result<Judged<Vec<typed_tree::Declarator>>, AllocError>
    ensures { IfOk result (λ r. judged_of declarators_of r (scope_of scope.new)
        ≡ squeezed_part (declarations.judge_init (storage_from storage)
        (option_map type_of base.now)
        (declarator_of tree.now) (option_map units.initializer_of (option_copied value.entry))
        (scope_of scope.old))) }
{
    match tree {
        Declarator::Object {
            name,
            lengths: all,
            ..
        } => object(alloc, scope, storage, base, name, all, value),
        Declarator::EmptyFunction { name, .. } | Declarator::VoidFunction { name, .. } => {
            let none = types_declarations::no_parameters(alloc);
            function(alloc, scope, storage, base, name, &none, value)
        }
        Declarator::Function {
            name,
            parameters: list,
            ..
        } => match prototype(alloc, scope, list) {
            Ok(found) => function(alloc, scope, storage, base, name, &found, value),
            Err(error) => Err(error),
        },
    }
}

fn init_declarator<'a>(
    alloc: Global,
    scope: &mut Scope<'a>,
    storage: Storage,
    base: &Option<CType>,
    tree: &InitDeclarator<'a>,
) -> Result<Judged<Vec<typed_tree::Declarator>>, AllocError>
    ensures { IfOk result (λ r. judged_of declarators_of r (scope_of scope.new)
        ≡ squeezed_part (declarations.judge_init_declarator (storage_from storage)
        (option_map type_of base.now) (units.init_declarator_of tree.now) (scope_of scope.old))) }
{
    match tree {
        InitDeclarator::Bare { declarator: one } => {
            declarator(alloc, scope, storage, base, one, None)
        }
        InitDeclarator::Initialized {
            declarator: one,
            value,
        } => declarator(alloc, scope, storage, base, one, Some(value)),
    }
}

fn init_declarators<'a>(
    alloc: Global,
    scope: &mut Scope<'a>,
    storage: Storage,
    base: &Option<CType>,
    trees: &[InitDeclarator<'a>],
) -> Result<Judged<Vec<typed_tree::Declarator>>, AllocError>
    ensures { IfOk result (λ r. judged_of declarators_of r (scope_of scope.new)
        ≡ squeezed_part (declarations.judge_init_declarators (storage_from storage)
        (option_map type_of base.now) (map units.init_declarator_of trees.now)
        (scope_of scope.old))) }
{
    let mut list = types_statements::no_declarators(alloc);
    for tree in trees {
        let one = init_declarator(alloc, scope, storage, base, tree)?;
        list = types_statements::more_declarators(list, one)?;
    }
    Ok(list)
}

/// A declaration: the objects with automatic storage duration that it declares.
pub(crate) fn declaration<'a>(
    alloc: Global,
    scope: &mut Scope<'a>,
    tree: &Declaration<'a>,
) -> Result<Judged<Vec<typed_tree::Declarator>>, AllocError>
    ensures { IfOk result (λ r. judged_of declarators_of r (scope_of scope.new)
        ≡ squeezed_part (declarations.judge_declaration (units.declaration_of tree.now)
        (scope_of scope.old))) }
{
    let all = &tree.specifiers;
    let alone = types_declarations::is_tag_alone(all, &tree.declarators);
    let storage = types_declarations::storage_of(all, scope.is_file);
    let of = typed(alloc, scope, tree.span.start, alone, all)?;
    let empty = types_declarations::empty_fault(all, &tree.declarators, tree.span.start);
    let list = init_declarators(alloc, scope, storage, &of.value, &tree.declarators)?;
    Ok(types_declarations::declaration(of.fault, empty, list))
}
