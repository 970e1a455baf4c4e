//! The first node outside in expressions, specifiers and declarators.
#![tactic(auto, using(crate::proofs::Order::lists))]

ghost use Rattle.std.specs.Prelude.{◌≡◌, map};
ghost use Rattle.mc_tree.specs.Views.{array_length_of, declarator_of, declarators_from, enumerator_of, enumerators_from, expression_of, expressions_from, lengths_from, member_of, members_from, parameter_of, parameters_from, specifier_of, specifiers_from};
ghost use Rattle.mc_tree.specs.Tree as source_tree;
ghost use Rattle.mc_subset.specs.Nodes as nodes;
ghost use Rattle.subset_forms.specs.declared.context.Role.TheVariants.{Part};
ghost use Rattle.subset_forms.specs.Order.{or_else};
ghost use Rattle.mc_subset.specs.Forms.{first_outside};

use crate::rows::{
    closing_of, expression_form, function_form, has_extern, judge, member_form, object_form,
    pointer_form, tag_form,
};
use mc_span::Span;
use mc_tree::{ArrayLength, Declarator, Enumerator, Expression, Member, Parameter, Specifier};
use subset_forms::{Form, Outside, Region, Role, first_of};

#[cycle(check)]
#[tactic(auto, using(crate::proofs::Order::first_of_expression))]
pub(crate) fn expression(tree: &Expression<'_>, region: Region, role: Role) -> Option<Outside>
    ensures { result ≡ first_outside
        (nodes.nodes_of_expression region role (expression_of tree.now)) }
{
    let first = judge(expression_form(tree, role), tree.span());
    first_of(first, parts_of_expression(tree, region, role))
}

/// An expression that is a part of something else, in its box, so that no arm of the walk opens
/// one.
#[cycle(check)]
pub(crate) fn part(tree: &Box<Expression<'_>>, region: Region) -> Option<Outside>
    ensures { let all = nodes.nodes_of_expression region Part (expression_of tree.now.value) in
        result ≡ first_outside all }
{
    expression(tree, region, Role::Part)
}

#[cycle(check)]
#[tactic(auto, using(crate::proofs::Trees::expressions))]
fn parts_of_expression(tree: &Expression<'_>, region: Region, role: Role) -> Option<Outside>
    ensures { result
        ≡ first_outside
        (nodes.after_first (nodes.nodes_of_expression region role (expression_of tree.now))) }
{
    match tree {
        Expression::Name { .. } | Expression::Constant { .. } | Expression::Character { .. } =>
            None,
        Expression::Parenthesized { inner, .. } => expression(inner, region, role.in_parentheses()),
        Expression::Call { arguments, .. } => expressions(arguments, region, Role::Part),
        Expression::Index { array, index, .. } => first_of(
            part(array, region),
            part(index, region),
        ),
        Expression::Member { object, .. } => part(object, region),
        Expression::PostfixStep { operand, .. }
        | Expression::PrefixStep { operand, .. }
        | Expression::Unary { operand, .. } => part(operand, region),
        Expression::Cast {
            specifiers: words,
            stars,
            type_span,
            operand,
            ..
        } => {
            let first = type_name(words, *stars, *type_span, region);
            first_of(first, part(operand, region))
        }
        Expression::Binary { left, right, .. } => first_of(part(left, region), part(right, region)),
        Expression::Conditional {
            test,
            chosen,
            other,
            ..
        } => {
            let first = part(test, region);
            let second = part(chosen, region);
            first_of(first, first_of(second, part(other, region)))
        }
        Expression::Assignment { target, value, .. } => {
            first_of(part(target, region), part(value, region))
        }
        Expression::Comma { operands, .. } => expressions(operands, region, role.of_operands()),
    }
}

#[cycle(check)]
fn expressions(trees: &[Expression<'_>], region: Region, role: Role) -> Option<Outside>
    ensures { let all = expressions_from (map expression_of trees.now) in
        result ≡ first_outside (nodes.nodes_of_expressions region role all) }
{
    for tree in trees {
        if let Some(first) = expression(tree, region, role) {
            return Some(first);
        }
    }
    None
}

#[cycle(check)]
#[tactic(auto, using(crate::proofs::Order::first_of_both), unfolding(crate::specs::Forms::form_of))]
fn type_name(words: &[Specifier<'_>], stars: u32, span: Span, region: Region) -> Option<Outside>
    ensures { let type = source_tree.type_name (specifiers_from (map specifier_of words.now))
        stars span in
        result ≡ first_outside (nodes.nodes_of_type region type) }
{
    first_of(judge(pointer_form(stars), span), specifiers(words, region))
}

#[cycle(check)]
pub(crate) fn specifiers(trees: &[Specifier<'_>], region: Region) -> Option<Outside>
    ensures { let all = specifiers_from (map specifier_of trees.now) in
        result ≡ first_outside (nodes.nodes_of_specifiers region all) }
{
    for tree in trees {
        if let Some(first) = specifier(tree, region) {
            return Some(first);
        }
    }
    None
}

#[cycle(check)]
#[tactic(auto, using(crate::proofs::Order::first_of_both), unfolding(crate::specs::Forms::form_of))]
fn specifier(tree: &Specifier<'_>, region: Region) -> Option<Outside>
    ensures { result ≡ first_outside (nodes.nodes_of_specifier region (specifier_of tree.now)) }
{
    match tree {
        Specifier::Structure {
            members: list,
            span,
            ..
        } => first_of(judge(tag_form(region), *span), members(list, region)),
        Specifier::Enumeration {
            enumerators: list,
            span,
            ..
        } => first_of(judge(tag_form(region), *span), enumerators(list, region)),
        Specifier::Word { .. }
        | Specifier::TypedefName { .. }
        | Specifier::StructureTag { .. }
        | Specifier::EnumerationTag { .. } => None,
    }
}

#[cycle(check)]
fn members(trees: &[Member<'_>], region: Region) -> Option<Outside>
    ensures { let all = members_from (map member_of trees.now) in
        result ≡ first_outside (nodes.nodes_of_members region all) }
{
    for tree in trees {
        if let Some(first) = member(tree, region) {
            return Some(first);
        }
    }
    None
}

#[cycle(check)]
#[tactic(auto, using(crate::proofs::Trees::declarations), unfolding(crate::specs::Forms::form_of))]
fn member(tree: &Member<'_>, region: Region) -> Option<Outside>
    ensures { result ≡ first_outside (nodes.nodes_of_member region (member_of tree.now)) }
{
    let first = judge(member_form(&tree.specifiers), tree.span);
    let second = specifiers(&tree.specifiers, region);
    let external = has_extern(&tree.specifiers);
    let third = declarators(&tree.declarators, region, external);
    first_of(first, first_of(second, third))
}

#[cycle(check)]
fn declarators(trees: &[Declarator<'_>], region: Region, external: bool) -> Option<Outside>
    ensures { let all = declarators_from (map declarator_of trees.now) in
        result ≡ first_outside (nodes.nodes_of_declarators region external all) }
{
    for tree in trees {
        if let Some(first) = declarator(tree, region, false, external) {
            return Some(first);
        }
    }
    None
}

#[cycle(check)]
fn enumerators(trees: &[Enumerator<'_>], region: Region) -> Option<Outside>
    ensures { let all = enumerators_from (map enumerator_of trees.now) in
        result ≡ first_outside (nodes.nodes_of_enumerators region all) }
{
    for tree in trees {
        if let Some(first) = enumerator(tree, region) {
            return Some(first);
        }
    }
    None
}

#[cycle(check)]
fn enumerator(tree: &Enumerator<'_>, region: Region) -> Option<Outside>
    ensures { result ≡ first_outside (nodes.nodes_of_enumerator region (enumerator_of tree.now)) }
{
    match tree {
        Enumerator::Valued { value, .. } => part(value, region),
        Enumerator::Bare { .. } => None,
    }
}

#[cycle(check)]
#[tactic(auto, using(crate::proofs::Order::first_of_both), unfolding(crate::specs::Forms::form_of))]
pub(crate) fn declarator(
    tree: &Declarator<'_>,
    region: Region,
    local: bool,
    external: bool,
) -> Option<Outside>
    ensures { let all = nodes.nodes_of_declarator region local external (declarator_of tree.now) in
        result ≡ first_outside all }
{
    match tree {
        Declarator::Object {
            stars,
            lengths: list,
            span,
            ..
        } => {
            let first = judge(object_form(*stars, external), *span);
            first_of(first, lengths(list, region))
        }
        Declarator::EmptyFunction {
            stars,
            list_span,
            span,
            ..
        } => {
            let first = judge(function_form(*stars, local), *span);
            let second = judge(Some(Form::EmptyParameters), closing_of(*list_span));
            first_of(first, second)
        }
        Declarator::VoidFunction { stars, span, .. } => judge(function_form(*stars, local), *span),
        Declarator::Function {
            stars,
            parameters: list,
            span,
            ..
        } => {
            let first = judge(function_form(*stars, local), *span);
            first_of(first, parameters(list))
        }
    }
}

#[cycle(check)]
fn lengths(trees: &[ArrayLength<'_>], region: Region) -> Option<Outside>
    ensures { let all = lengths_from (map array_length_of trees.now) in
        result ≡ first_outside (nodes.nodes_of_lengths region all) }
{
    for tree in trees {
        if let Some(first) = length(tree, region) {
            return Some(first);
        }
    }
    None
}

// A pair of brackets stands before others, so its nodes do too.
#[cycle(check)]
#[tactic(auto, using(crate::proofs::Trees::lengths))]
fn length(tree: &ArrayLength<'_>, region: Region) -> Option<Outside>
    ensures { (rest : source_tree.ArrayLengths)
        → first_outside (nodes.nodes_of_lengths region (array_length_of tree.now rest))
        ≡ or_else result (first_outside (nodes.nodes_of_lengths region rest)) }
{
    match tree {
        ArrayLength::Given { value } => part(value, region),
        ArrayLength::Absent => None,
    }
}

#[cycle(check)]
fn parameters(trees: &[Parameter<'_>]) -> Option<Outside>
    ensures { let all = parameters_from (map parameter_of trees.now) in
        result ≡ first_outside (nodes.nodes_of_parameter_list all) }
{
    for tree in trees {
        if let Some(first) = parameter(tree) {
            return Some(first);
        }
    }
    None
}

#[cycle(check)]
#[tactic(auto, using(crate::proofs::Trees::declarations), unfolding(crate::specs::Forms::form_of))]
fn parameter(tree: &Parameter<'_>) -> Option<Outside>
    ensures { result ≡ first_outside (nodes.nodes_of_parameter (parameter_of tree.now)) }
{
    let first = judge(pointer_form(tree.stars), tree.span);
    let second = specifiers(&tree.specifiers, Region::Function);
    let third = lengths(&tree.lengths, Region::Function);
    first_of(first, first_of(second, third))
}
