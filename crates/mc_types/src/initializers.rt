//! Initializers (C17 6.7.9).
ghost use Rattle.std.specs.Prelude.{◌≡◌, IfOk, length, map, option_copied, option_map};
ghost use Rattle.mc_tree.specs.Tree as source_tree;
ghost use Rattle.mc_tree.specs.Units as units;
ghost use Rattle.mc_tree.specs.Views.{expression_of};
ghost use Rattle.mc_typed.specs.Views.{initializer_of};
ghost use Rattle.types_rules.specs.Initializers as initializer_rules;
ghost use Rattle.types_scopes.specs.Types.{type_of};
ghost use Rattle.types_scopes.specs.Views.{scope_of};
ghost use Rattle.types_scopes.specs.Found.{judged_of};
ghost use Rattle.types_scopes.specs.steps.Squeezed.{squeezed_part};
ghost use Rattle.types_statements.specs.Items.{items_of};
ghost use Rattle.mc_types.specs.Single.{AreParts, single_in};

use crate::expressions::expression;
use mc_tree::{Expression, Initializer};
use mc_typed::{self as typed, Span};
use std::alloc::{AllocError, Global};
use types_scopes::count::count_of;
use types_scopes::found::Judged;
use types_scopes::{CType, Scope};
use types_statements::PartTypes;

/// An initializer of an object of this type; `is_static` says that the object has static storage
/// duration.
#[cycle(initializers)]
pub(crate) fn initializer<'a>(
    alloc: Global,
    scope: &mut Scope<'a>,
    is_static: bool,
    of: Option<&CType>,
    tree: &Initializer<'a>,
) -> Result<Judged<typed::Initializer>, AllocError>
    ensures { IfOk result (λ r. judged_of initializer_of r (scope_of scope.new)
        ≡ squeezed_part (initializer_rules.judge_initializer is_static
        (option_map type_of (option_copied of.entry))
        (units.initializer_of tree.now) (scope_of scope.old))) }
{
    match tree {
        Initializer::Single { value } => match expression(alloc, scope, value) {
            Ok(found) => types_statements::single_initializer(
                alloc,
                is_static,
                scope,
                of,
                value.span().start,
                found,
            ),
            Err(error) => Err(error),
        },
        Initializer::Braced { items: trees, span } => match only(trees) {
            Some(value) => only_expression(alloc, scope, is_static, of, *span, value),
            None => list(alloc, scope, is_static, of, *span, trees),
        },
    }
}

/// The expression of an initializer that has no braces. Takes no memory.
fn single<'t, 'a>(tree: &'t Initializer<'a>) -> Option<&'t Expression<'a>>
    ensures { option_map expression_of (option_copied result)
        ≡ single_in (units.initializer_of tree.now) }
{
    match tree {
        Initializer::Single { value } => Some(value),
        Initializer::Braced { .. } => None,
    }
}

/// The expression of a list that has no more items. Takes no memory.
#[tactic(auto, using(crate::proofs::InitializerArms::only_none))]
fn only<'t, 'a>(trees: &'t [Initializer<'a>]) -> Option<&'t Expression<'a>>
    ensures { option_map expression_of (option_copied result)
        ≡ initializer_rules.only_expression
        (units.initializers_from (map units.initializer_of trees.now)) }
{
    match trees {
        [tree] => single(tree),
        _ => None,
    }
}

/// The list of an expression alone.
#[inline(never)]
fn only_expression<'a>(
    alloc: Global,
    scope: &mut Scope<'a>,
    is_static: bool,
    of: Option<&CType>,
    span: Span,
    tree: &Expression<'a>,
) -> Result<Judged<typed::Initializer>, AllocError>
    ensures { IfOk result (λ r. judged_of initializer_of r (scope_of scope.new)
        ≡ squeezed_part (initializer_rules.judge_initializer is_static
        (option_map type_of (option_copied of.entry))
        (source_tree.Braced (source_tree.initializers
        (source_tree.Single (expression_of tree.now)) source_tree.no_initializers) span)
        (scope_of scope.old))) }
{
    let parts = types_statements::parts(alloc, scope, of, 1)?;
    let start = tree.span().start;
    match expression(alloc, scope, tree) {
        Ok(found) => types_statements::braced_expression(
            alloc,
            is_static,
            scope,
            of,
            parts.get(0),
            span.start,
            start,
            found,
        ),
        Err(error) => Err(error),
    }
}

/// A list as initializer that is not of an expression alone.
#[cycle(initializers)]
#[inline(never)]
fn list<'a>(
    alloc: Global,
    scope: &mut Scope<'a>,
    is_static: bool,
    of: Option<&CType>,
    span: Span,
    trees: &[Initializer<'a>],
) -> Result<Judged<typed::Initializer>, AllocError>
    ensures { let all = units.initializers_from (map units.initializer_of trees.now) in
        let u = option_map type_of (option_copied of.entry) in
        IfOk result (λ r. judged_of initializer_of r (scope_of scope.new)
        ≡ squeezed_part (initializer_rules.list_judged u span.start
        (initializer_rules.item_count all) (initializer_rules.judge_items is_static
        (initializer_rules.parts_of (initializer_rules.target_of (scope_of scope.old).structures
        u)) all (scope_of scope.old)))) }
{
    let parts = types_statements::parts(alloc, scope, of, trees.len())?;
    let found = items(alloc, scope, is_static, &parts, trees)?;
    Ok(types_statements::list_initializer(scope, of, span.start, count_of(trees), found))
}

/// The items of a list, which are for these parts.
#[cycle(initializers)]
fn items<'a>(
    alloc: Global,
    scope: &mut Scope<'a>,
    is_static: bool,
    parts: &PartTypes,
    trees: &[Initializer<'a>],
) -> Result<Judged<Vec<typed::Initializer>>, AllocError>
    ensures { (p : initializer_rules.Parts) → AreParts (length trees.now) parts.now p
        → IfOk result (λ r. judged_of items_of r (scope_of scope.new)
        ≡ squeezed_part (initializer_rules.judge_items is_static p
        (units.initializers_from (map units.initializer_of trees.now)) (scope_of scope.old))) }
{
    let mut list = types_statements::no_items(alloc);
    for (place, tree) in trees.iter().enumerate() {
        let one = initializer(alloc, scope, is_static, parts.get(place), tree)?;
        list = types_statements::more_items(list, one)?;
    }
    Ok(list)
}
