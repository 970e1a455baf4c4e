//! The height of expressions, specifiers and declarators.
ghost use Rattle.std.specs.Prelude.{◌≡◌, ◌≤◌, map};
ghost use Rattle.mc_tree.specs.Views.{expression_of, expressions_from, specifier_of, specifiers_from, member_of, members_from, enumerator_of, enumerators_from, declarator_of, declarators_from, array_length_of, lengths_from, parameter_of, parameters_from};
ghost use Rattle.mc_tree.specs.Height as heights;

use crate::declarations::array_length::ArrayLength;
use crate::declarations::declarator::Declarator;
use crate::declarations::enumerator::Enumerator;
use crate::declarations::member::Member;
use crate::declarations::parameter::Parameter;
use crate::declarations::specifier::Specifier;
use crate::expressions::expression::Expression;
use std::cmp::max;

#[cycle(height)]
pub(crate) fn expression(tree: &Expression<'_>) -> u32
    requires { heights.height (expression_of tree.now) ≤ 800 }
    ensures { result ≡ heights.height (expression_of tree.now) }
{
    match tree {
        Expression::Name { .. } | Expression::Constant { .. } | Expression::Character { .. } => 1,
        Expression::Parenthesized { inner, .. } => expression(inner) + 1,
        Expression::Call { arguments, .. } => expressions(arguments) + 1,
        Expression::Index { array, index, .. } => max(expression(array), expression(index)) + 1,
        Expression::Member { object, .. } => expression(object) + 1,
        Expression::PostfixStep { operand, .. } | Expression::PrefixStep { operand, .. } => {
            expression(operand) + 1
        }
        Expression::Unary { operand, .. } => expression(operand) + 1,
        Expression::Cast {
            specifiers: words,
            operand,
            ..
        } => { max(specifiers(words), expression(operand)) + 1 }
        Expression::Binary { left, right, .. } => max(expression(left), expression(right)) + 1,
        Expression::Conditional {
            test,
            chosen,
            other,
            ..
        } => { max(expression(test), max(expression(chosen), expression(other))) + 1 }
        Expression::Assignment { target, value, .. } => {
            max(expression(target), expression(value)) + 1
        }
        Expression::Comma { operands, .. } => expressions(operands) + 1,
    }
}

#[cycle(height)]
fn expressions(trees: &[Expression<'_>]) -> u32
    requires { heights.tallest (expressions_from (map expression_of trees.now)) ≤ 800 }
    ensures { result ≡ heights.tallest (expressions_from (map expression_of trees.now)) }
{
    let mut tallest = 0;
    for tree in trees {
        tallest = max(tallest, expression(tree));
    }
    tallest
}

#[cycle(height)]
pub(crate) fn specifiers(trees: &[Specifier<'_>]) -> u32
    requires { heights.height_specifiers (specifiers_from (map specifier_of trees.now)) ≤ 800 }
    ensures { result ≡ heights.height_specifiers (specifiers_from (map specifier_of trees.now)) }
{
    let mut tallest = 0;
    for tree in trees {
        tallest = max(tallest, specifier(tree));
    }
    tallest
}

#[cycle(height)]
fn specifier(tree: &Specifier<'_>) -> u32
    requires { heights.height_specifier (specifier_of tree.now) ≤ 800 }
    ensures { result ≡ heights.height_specifier (specifier_of tree.now) }
{
    match tree {
        Specifier::Structure { members: list, .. } => members(list) + 1,
        Specifier::Enumeration {
            enumerators: list,
            ..
        } => enumerators(list) + 1,
        Specifier::Word { .. }
        | Specifier::TypedefName { .. }
        | Specifier::StructureTag { .. }
        | Specifier::EnumerationTag { .. } => 0,
    }
}

#[cycle(height)]
fn members(trees: &[Member<'_>]) -> u32
    requires { heights.height_members (members_from (map member_of trees.now)) ≤ 800 }
    ensures { result ≡ heights.height_members (members_from (map member_of trees.now)) }
{
    let mut tallest = 0;
    for tree in trees {
        let parts = max(specifiers(&tree.specifiers), declarators(&tree.declarators));
        tallest = max(tallest, parts);
    }
    tallest
}

#[cycle(height)]
fn enumerators(trees: &[Enumerator<'_>]) -> u32
    requires { heights.height_enumerators (enumerators_from (map enumerator_of trees.now)) ≤ 800 }
    ensures { result ≡ heights.height_enumerators (enumerators_from (map enumerator_of trees.now)) }
{
    let mut tallest = 0;
    for tree in trees {
        if let Enumerator::Valued { value, .. } = tree {
            tallest = max(tallest, expression(value));
        }
    }
    tallest
}

#[cycle(height)]
fn declarators(trees: &[Declarator<'_>]) -> u32
    requires { heights.height_declarators (declarators_from (map declarator_of trees.now)) ≤ 800 }
    ensures { result ≡ heights.height_declarators (declarators_from (map declarator_of trees.now)) }
{
    let mut tallest = 0;
    for tree in trees {
        tallest = max(tallest, declarator(tree));
    }
    tallest
}

#[cycle(height)]
pub(crate) fn declarator(tree: &Declarator<'_>) -> u32
    requires { heights.height_declarator (declarator_of tree.now) ≤ 800 }
    ensures { result ≡ heights.height_declarator (declarator_of tree.now) }
{
    match tree {
        Declarator::Object { lengths: list, .. } => lengths(list),
        Declarator::EmptyFunction { .. } | Declarator::VoidFunction { .. } => 0,
        Declarator::Function {
            parameters: list,
            ..
        } => parameters(list),
    }
}

#[cycle(height)]
fn lengths(trees: &[ArrayLength<'_>]) -> u32
    requires { heights.height_lengths (lengths_from (map array_length_of trees.now)) ≤ 800 }
    ensures { result ≡ heights.height_lengths (lengths_from (map array_length_of trees.now)) }
{
    let mut tallest = 0;
    for tree in trees {
        if let ArrayLength::Given { value } = tree {
            tallest = max(tallest, expression(value));
        }
    }
    tallest
}

#[cycle(height)]
fn parameters(trees: &[Parameter<'_>]) -> u32
    requires { heights.height_parameter_list (parameters_from (map parameter_of trees.now)) ≤ 800 }
    ensures { result ≡ heights.height_parameter_list
        (parameters_from (map parameter_of trees.now)) }
{
    let mut tallest = 0;
    for tree in trees {
        let parts = max(specifiers(&tree.specifiers), lengths(&tree.lengths));
        tallest = max(tallest, parts);
    }
    tallest
}
