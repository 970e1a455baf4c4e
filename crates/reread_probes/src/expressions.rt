//! The walk over expressions, specifiers and declarators.
ghost use Rattle.std.specs.Prelude.{◌≡◌, map, IfOk};
ghost use Rattle.mc_tree.specs.Views.{
  array_length_of,
  declarator_of,
  declarators_from,
  enumerator_of,
  enumerators_from,
  expression_of,
  expressions_from,
  lengths_from,
  member_of,
  members_from,
  parameter_of,
  parameters_from,
  specifier_of,
  specifiers_from,
};
ghost use Rattle.mc_tree.specs.Tree.{ArrayLengths, span_of};
ghost use Rattle.reread_probes.specs.Expressions as spec;
ghost use Rattle.reread_probes.specs.steps.Views.{walk_of};

use crate::spot::Spot;
use crate::walk::Walk;
use mc_span::Span;
use mc_tree::{ArrayLength, Declarator, Enumerator, Expression, Member, Parameter, Specifier};
use std::alloc::AllocError;

/// Whether an expression is no assignment and no comma expression.
fn is_cond(tree: &Expression<'_>) -> bool
    ensures { result ≡ spec.is_cond (expression_of tree.now) }
{
    !matches!(
        tree,
        Expression::Assignment { .. } | Expression::Comma { .. }
    )
}

/// Where an expression stands, without parentheses round it.
fn bare_span(tree: &Expression<'_>) -> Span
    ensures { result ≡ span_of (spec.bare (expression_of tree.now)) }
{
    match tree {
        Expression::Parenthesized { inner, .. } => bare_span(inner),
        _ => tree.span(),
    }
}

/// Takes the probe to which parentheses belong, where they are not those of the source.
fn enter_parentheses(
    walk: &mut Walk<'_>,
    inner: &Expression<'_>,
    span: Span,
) -> Result<(), AllocError>
    ensures { IfOk result (λ _. walk_of walk.new
        ≡ spec.enter_parentheses (expression_of inner.now) span (walk_of walk.old)) }
{
    if span.start == inner.span().start {
        let spot = Spot::Operand {
            start: span.start,
            is_cond: is_cond(inner),
        };
        walk.must_take(spot, bare_span(inner))?;
    }
    Ok(())
}

#[cycle(walk)]
#[tactic(auto, using(crate::proofs::Trees::expressions))]
pub(crate) fn expression(walk: &mut Walk<'_>, tree: &Expression<'_>) -> Result<(), AllocError>
    ensures { IfOk result (λ _. walk_of walk.new
        ≡ spec.walk_expression (expression_of tree.now) (walk_of walk.old)) }
{
    match tree {
        Expression::Name { .. } | Expression::Constant { .. } | Expression::Character { .. } => Ok(
            (),
        ),
        Expression::Parenthesized { inner, span } => {
            enter_parentheses(walk, inner, *span)?;
            expression(walk, inner)?;
            Ok(())
        }
        Expression::Call { arguments, .. } => {
            expressions(walk, arguments)?;
            Ok(())
        }
        Expression::Index { array, index, .. } => {
            expression(walk, array)?;
            expression(walk, index)?;
            Ok(())
        }
        Expression::Member { object, .. } => {
            expression(walk, object)?;
            Ok(())
        }
        Expression::PostfixStep { operand, .. }
        | Expression::PrefixStep { operand, .. }
        | Expression::Unary { operand, .. } => {
            expression(walk, operand)?;
            Ok(())
        }
        Expression::Cast {
            specifiers: words,
            type_span,
            operand,
            span,
            ..
        } => {
            walk.refuse_if(span.start == type_span.start);
            specifiers(walk, words)?;
            expression(walk, operand)?;
            Ok(())
        }
        Expression::Binary { left, right, .. } => {
            expression(walk, left)?;
            expression(walk, right)?;
            Ok(())
        }
        Expression::Conditional {
            test,
            chosen,
            other,
            ..
        } => {
            expression(walk, test)?;
            expression(walk, chosen)?;
            expression(walk, other)?;
            Ok(())
        }
        Expression::Assignment { target, value, .. } => {
            expression(walk, target)?;
            expression(walk, value)?;
            Ok(())
        }
        Expression::Comma { operands, .. } => {
            expressions(walk, operands)?;
            Ok(())
        }
    }
}

#[cycle(walk)]
fn expressions(walk: &mut Walk<'_>, trees: &[Expression<'_>]) -> Result<(), AllocError>
    ensures { IfOk result (λ _. walk_of walk.new ≡ spec.walk_expressions
        (expressions_from (map expression_of trees.now)) (walk_of walk.old)) }
{
    for tree in trees {
        expression(walk, tree)?;
    }
    Ok(())
}

#[cycle(walk)]
pub(crate) fn specifiers(walk: &mut Walk<'_>, trees: &[Specifier<'_>]) -> Result<(), AllocError>
    ensures { IfOk result (λ _. walk_of walk.new
        ≡ spec.walk_specifiers (specifiers_from (map specifier_of trees.now)) (walk_of walk.old)) }
{
    for tree in trees {
        specifier(walk, tree)?;
    }
    Ok(())
}

#[cycle(walk)]
fn specifier(walk: &mut Walk<'_>, tree: &Specifier<'_>) -> Result<(), AllocError>
    ensures { IfOk result (λ _. walk_of walk.new
        ≡ spec.walk_specifier (specifier_of tree.now) (walk_of walk.old)) }
{
    match tree {
        Specifier::Structure { members: list, .. } => {
            members(walk, list)?;
            Ok(())
        }
        Specifier::Enumeration {
            enumerators: list,
            ..
        } => {
            enumerators(walk, list)?;
            Ok(())
        }
        Specifier::Word { .. }
        | Specifier::TypedefName { .. }
        | Specifier::StructureTag { .. }
        | Specifier::EnumerationTag { .. } => Ok(()),
    }
}

#[cycle(walk)]
fn members(walk: &mut Walk<'_>, trees: &[Member<'_>]) -> Result<(), AllocError>
    ensures { IfOk result (λ _. walk_of walk.new
        ≡ spec.walk_members (members_from (map member_of trees.now)) (walk_of walk.old)) }
{
    for tree in trees {
        member(walk, tree)?;
    }
    Ok(())
}

#[cycle(walk)]
#[tactic(auto, using(crate::proofs::Trees::declarations))]
fn member(walk: &mut Walk<'_>, tree: &Member<'_>) -> Result<(), AllocError>
    ensures { IfOk result (λ _. walk_of walk.new
        ≡ spec.walk_member (member_of tree.now) (walk_of walk.old)) }
{
    specifiers(walk, &tree.specifiers)?;
    declarators(walk, &tree.declarators)?;
    Ok(())
}

#[cycle(walk)]
fn enumerators(walk: &mut Walk<'_>, trees: &[Enumerator<'_>]) -> Result<(), AllocError>
    ensures { IfOk result (λ _. walk_of walk.new ≡ spec.walk_enumerators
        (enumerators_from (map enumerator_of trees.now)) (walk_of walk.old)) }
{
    for tree in trees {
        enumerator(walk, tree)?;
    }
    Ok(())
}

#[cycle(walk)]
fn enumerator(walk: &mut Walk<'_>, tree: &Enumerator<'_>) -> Result<(), AllocError>
    ensures { IfOk result (λ _. walk_of walk.new
        ≡ spec.walk_enumerator (enumerator_of tree.now) (walk_of walk.old)) }
{
    match tree {
        Enumerator::Valued { value, .. } => {
            expression(walk, value)?;
            Ok(())
        }
        Enumerator::Bare { .. } => Ok(()),
    }
}

#[cycle(walk)]
fn declarators(walk: &mut Walk<'_>, trees: &[Declarator<'_>]) -> Result<(), AllocError>
    ensures { IfOk result (λ _. walk_of walk.new ≡ spec.walk_declarators
        (declarators_from (map declarator_of trees.now)) (walk_of walk.old)) }
{
    for tree in trees {
        declarator(walk, tree)?;
    }
    Ok(())
}

#[cycle(walk)]
pub(crate) fn declarator(walk: &mut Walk<'_>, tree: &Declarator<'_>) -> Result<(), AllocError>
    ensures { IfOk result (λ _. walk_of walk.new
        ≡ spec.walk_declarator (declarator_of tree.now) (walk_of walk.old)) }
{
    match tree {
        Declarator::Object { lengths: list, .. } => {
            lengths(walk, list)?;
            Ok(())
        }
        Declarator::EmptyFunction { .. } | Declarator::VoidFunction { .. } => Ok(()),
        Declarator::Function {
            parameters: list,
            ..
        } => {
            parameters(walk, list)?;
            Ok(())
        }
    }
}

#[cycle(walk)]
fn lengths(walk: &mut Walk<'_>, trees: &[ArrayLength<'_>]) -> Result<(), AllocError>
    ensures { IfOk result (λ _. walk_of walk.new
        ≡ spec.walk_lengths (lengths_from (map array_length_of trees.now)) (walk_of walk.old)) }
{
    for tree in trees {
        length(walk, tree)?;
    }
    Ok(())
}

// A pair of brackets stands before others: the walk goes on with these.
#[cycle(walk)]
#[tactic(auto, using(crate::proofs::Trees::declarations))]
fn length(walk: &mut Walk<'_>, tree: &ArrayLength<'_>) -> Result<(), AllocError>
    ensures { (rest : ArrayLengths) → IfOk result (λ _. spec.walk_lengths rest (walk_of walk.new)
        ≡ spec.walk_lengths (array_length_of tree.now rest) (walk_of walk.old)) }
{
    match tree {
        ArrayLength::Given { value } => {
            expression(walk, value)?;
            Ok(())
        }
        ArrayLength::Absent => Ok(()),
    }
}

#[cycle(walk)]
fn parameters(walk: &mut Walk<'_>, trees: &[Parameter<'_>]) -> Result<(), AllocError>
    ensures { IfOk result (λ _. walk_of walk.new ≡ spec.walk_parameter_list
        (parameters_from (map parameter_of trees.now)) (walk_of walk.old)) }
{
    for tree in trees {
        parameter(walk, tree)?;
    }
    Ok(())
}

#[cycle(walk)]
#[tactic(auto, using(crate::proofs::Trees::declarations))]
fn parameter(walk: &mut Walk<'_>, tree: &Parameter<'_>) -> Result<(), AllocError>
    ensures { IfOk result (λ _. walk_of walk.new
        ≡ spec.walk_parameter (parameter_of tree.now) (walk_of walk.old)) }
{
    specifiers(walk, &tree.specifiers)?;
    lengths(walk, &tree.lengths)?;
    Ok(())
}
