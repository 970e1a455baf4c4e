//! Copies of expressions, and of the specifiers and declarators that may hold some.
ghost use Rattle.std.specs.Prelude.{◌≡◌, IfOk, map};
ghost use Rattle.mc_tree.specs.Tree as syntax;
ghost use Rattle.mc_tree.specs.Units.{value_of};
ghost use Rattle.mc_tree.specs.Views.{
  array_length_of,
  declarator_of,
  declarators_from,
  enumerator_of,
  enumerators_from,
  expression_of,
  expressions_from,
  lengths_from,
  member_of,
  members_from,
  parameter_of,
  parameters_from,
  specifier_of,
  specifiers_from,
};
ghost use Rattle.reread_plain_tree.specs.Unprobed as spec;

use crate::copies::brackets::is_at;
use crate::copies::heap::push_boxed;
use crate::copies::nodes::expressions as nodes;
use mc_tree::{ArrayLength, Declarator, Enumerator, Expression, Member, Parameter, Specifier};
use std::alloc::{AllocError, Global};

/// A copy of an expression.
#[cycle(copy)]
pub(super) fn expression<'a>(
    alloc: Global,
    tree: &Expression<'a>,
) -> Result<Box<Expression<'a>>, AllocError>
    ensures { IfOk result (λ c. value_of c ≡ spec.unprobed (expression_of tree.now)) }
{
    match tree {
        Expression::Name { name } => nodes::name(alloc, *name),
        Expression::Constant {
            value,
            decimal,
            unsigned,
            longs,
            span,
        } => nodes::constant(alloc, *value, *decimal, *unsigned, *longs, *span),
        Expression::Character { value, span } => nodes::character(alloc, *value, *span),
        Expression::Parenthesized { inner, span } => {
            let copy = expression(alloc, inner)?;
            if is_at(*span, inner.span()) {
                return Ok(copy);
            }
            nodes::parenthesized(alloc, copy, *span)
        }
        Expression::Call {
            name,
            arguments,
            span,
        } => {
            let arguments = expressions(alloc, arguments)?;
            nodes::call(alloc, *name, arguments, *span)
        }
        Expression::Index { array, index, span } => {
            let array = expression(alloc, array)?;
            let index = expression(alloc, index)?;
            nodes::index(alloc, array, index, *span)
        }
        Expression::Member { object, name, span } => {
            let object = expression(alloc, object)?;
            nodes::member(alloc, object, *name, *span)
        }
        Expression::PostfixStep {
            operator,
            operand,
            span,
        } => {
            let operand = expression(alloc, operand)?;
            nodes::postfix_step(alloc, *operator, operand, *span)
        }
        Expression::PrefixStep {
            operator,
            operand,
            span,
        } => {
            let operand = expression(alloc, operand)?;
            nodes::prefix_step(alloc, *operator, operand, *span)
        }
        Expression::Unary {
            operator,
            operand,
            span,
        } => {
            let operand = expression(alloc, operand)?;
            nodes::unary(alloc, *operator, operand, *span)
        }
        Expression::Cast {
            specifiers: words,
            stars,
            type_span,
            operand,
            span,
        } => {
            let words = specifiers(alloc, words)?;
            let operand = expression(alloc, operand)?;
            nodes::cast(alloc, words, *stars, *type_span, operand, *span)
        }
        Expression::Binary {
            operator,
            left,
            right,
            span,
        } => {
            let left = expression(alloc, left)?;
            let right = expression(alloc, right)?;
            nodes::binary(alloc, *operator, left, right, *span)
        }
        Expression::Conditional {
            test,
            chosen,
            other,
            span,
        } => {
            let test = expression(alloc, test)?;
            let chosen = expression(alloc, chosen)?;
            let other = expression(alloc, other)?;
            nodes::conditional(alloc, test, chosen, other, *span)
        }
        Expression::Assignment {
            operator,
            target,
            value,
            span,
        } => {
            let target = expression(alloc, target)?;
            let value = expression(alloc, value)?;
            nodes::assignment(alloc, *operator, target, value, *span)
        }
        Expression::Comma { operands, span } => {
            let operands = expressions(alloc, operands)?;
            nodes::comma(alloc, operands, *span)
        }
    }
}

#[cycle(copy)]
fn expressions<'a>(
    alloc: Global,
    trees: &[Expression<'a>],
) -> Result<Vec<Expression<'a>>, AllocError>
    ensures { IfOk result (λ c. expressions_from (map expression_of c.items)
        ≡ spec.unprobed_expressions (expressions_from (map expression_of trees.now))) }
{
    let mut copies = Vec::with_capacity(alloc, trees.len())?;
    for tree in trees {
        let copy = expression(alloc, tree)?;
        push_boxed(&mut copies, copy)?;
    }
    Ok(copies)
}

#[cycle(copy)]
fn specifier<'a>(alloc: Global, tree: &Specifier<'a>) -> Result<Specifier<'a>, AllocError>
    ensures { IfOk result (λ c.
        specifier_of c ≡ spec.unprobed_specifier (specifier_of tree.now)) }
{
    match tree {
        Specifier::Word { word, span } => Ok(Specifier::Word {
            word: *word,
            span: *span,
        }),
        Specifier::TypedefName { name } => Ok(Specifier::TypedefName { name: *name }),
        Specifier::StructureTag { tag, span } => Ok(Specifier::StructureTag {
            tag: *tag,
            span: *span,
        }),
        Specifier::Structure {
            tag,
            members: list,
            span,
        } => {
            let members = members(alloc, list)?;
            Ok(Specifier::Structure {
                tag: *tag,
                members,
                span: *span,
            })
        }
        Specifier::EnumerationTag { tag, span } => Ok(Specifier::EnumerationTag {
            tag: *tag,
            span: *span,
        }),
        Specifier::Enumeration {
            tag,
            enumerators: list,
            span,
        } => {
            let enumerators = enumerators(alloc, list)?;
            Ok(Specifier::Enumeration {
                tag: *tag,
                enumerators,
                span: *span,
            })
        }
    }
}

/// Copies of specifiers.
#[cycle(copy)]
pub(super) fn specifiers<'a>(
    alloc: Global,
    trees: &[Specifier<'a>],
) -> Result<Vec<Specifier<'a>>, AllocError>
    ensures { IfOk result (λ c. specifiers_from (map specifier_of c.items)
        ≡ spec.unprobed_specifiers (specifiers_from (map specifier_of trees.now))) }
{
    let mut copies = Vec::with_capacity(alloc, trees.len())?;
    for tree in trees {
        let copy = specifier(alloc, tree)?;
        copies.push(copy)?;
    }
    Ok(copies)
}

#[cycle(copy)]
fn member<'a>(alloc: Global, tree: &Member<'a>) -> Result<Member<'a>, AllocError>
    ensures { IfOk result (λ c. member_of c ≡ spec.unprobed_member (member_of tree.now)) }
{
    let specifiers = specifiers(alloc, &tree.specifiers)?;
    let declarators = declarators(alloc, &tree.declarators)?;
    Ok(Member {
        specifiers,
        declarators,
        span: tree.span,
    })
}

#[cycle(copy)]
fn members<'a>(alloc: Global, trees: &[Member<'a>]) -> Result<Vec<Member<'a>>, AllocError>
    ensures { IfOk result (λ c. members_from (map member_of c.items)
        ≡ spec.unprobed_members (members_from (map member_of trees.now))) }
{
    let mut copies = Vec::with_capacity(alloc, trees.len())?;
    for tree in trees {
        let copy = member(alloc, tree)?;
        copies.push(copy)?;
    }
    Ok(copies)
}

#[cycle(copy)]
fn enumerator<'a>(alloc: Global, tree: &Enumerator<'a>) -> Result<Enumerator<'a>, AllocError>
    ensures { IfOk result (λ c.
        enumerator_of c ≡ spec.unprobed_enumerator (enumerator_of tree.now)) }
{
    match tree {
        Enumerator::Bare { name } => Ok(Enumerator::Bare { name: *name }),
        Enumerator::Valued { name, value } => {
            let value = expression(alloc, value)?;
            Ok(Enumerator::Valued { name: *name, value })
        }
    }
}

#[cycle(copy)]
fn enumerators<'a>(
    alloc: Global,
    trees: &[Enumerator<'a>],
) -> Result<Vec<Enumerator<'a>>, AllocError>
    ensures { IfOk result (λ c. enumerators_from (map enumerator_of c.items)
        ≡ spec.unprobed_enumerators (enumerators_from (map enumerator_of trees.now))) }
{
    let mut copies = Vec::with_capacity(alloc, trees.len())?;
    for tree in trees {
        let copy = enumerator(alloc, tree)?;
        copies.push(copy)?;
    }
    Ok(copies)
}

/// A copy of a declarator.
#[cycle(copy)]
pub(super) fn declarator<'a>(
    alloc: Global,
    tree: &Declarator<'a>,
) -> Result<Declarator<'a>, AllocError>
    ensures { IfOk result (λ c.
        declarator_of c ≡ spec.unprobed_declarator (declarator_of tree.now)) }
{
    match tree {
        Declarator::Object {
            stars,
            name,
            lengths: list,
            span,
        } => {
            let lengths = lengths(alloc, list)?;
            Ok(Declarator::Object {
                stars: *stars,
                name: *name,
                lengths,
                span: *span,
            })
        }
        Declarator::EmptyFunction {
            stars,
            name,
            list_span,
            span,
        } => Ok(Declarator::EmptyFunction {
            stars: *stars,
            name: *name,
            list_span: *list_span,
            span: *span,
        }),
        Declarator::VoidFunction {
            stars,
            name,
            list_span,
            span,
        } => Ok(Declarator::VoidFunction {
            stars: *stars,
            name: *name,
            list_span: *list_span,
            span: *span,
        }),
        Declarator::Function {
            stars,
            name,
            parameters: list,
            list_span,
            span,
        } => {
            let parameters = parameters(alloc, list)?;
            Ok(Declarator::Function {
                stars: *stars,
                name: *name,
                parameters,
                list_span: *list_span,
                span: *span,
            })
        }
    }
}

#[cycle(copy)]
fn declarators<'a>(
    alloc: Global,
    trees: &[Declarator<'a>],
) -> Result<Vec<Declarator<'a>>, AllocError>
    ensures { IfOk result (λ c. declarators_from (map declarator_of c.items)
        ≡ spec.unprobed_declarators (declarators_from (map declarator_of trees.now))) }
{
    let mut copies = Vec::with_capacity(alloc, trees.len())?;
    for tree in trees {
        let copy = declarator(alloc, tree)?;
        copies.push(copy)?;
    }
    Ok(copies)
}

/// A copy of brackets, which stand alone in the clause.
#[cycle(copy)]
fn length<'a>(alloc: Global, tree: &ArrayLength<'a>) -> Result<ArrayLength<'a>, AllocError>
    ensures { IfOk result (λ c. array_length_of c syntax.no_lengths
        ≡ spec.unprobed_lengths (array_length_of tree.now syntax.no_lengths)) }
{
    match tree {
        ArrayLength::Absent => Ok(ArrayLength::Absent),
        ArrayLength::Given { value } => {
            let value = expression(alloc, value)?;
            Ok(ArrayLength::Given { value })
        }
    }
}

#[cycle(copy)]
fn lengths<'a>(alloc: Global, trees: &[ArrayLength<'a>]) -> Result<Vec<ArrayLength<'a>>, AllocError>
    ensures { IfOk result (λ c. lengths_from (map array_length_of c.items)
        ≡ spec.unprobed_lengths (lengths_from (map array_length_of trees.now))) }
{
    let mut copies = Vec::with_capacity(alloc, trees.len())?;
    for tree in trees {
        let copy = length(alloc, tree)?;
        copies.push(copy)?;
    }
    Ok(copies)
}

#[cycle(copy)]
fn parameter<'a>(alloc: Global, tree: &Parameter<'a>) -> Result<Parameter<'a>, AllocError>
    ensures { IfOk result (λ c.
        parameter_of c ≡ spec.unprobed_parameter (parameter_of tree.now)) }
{
    let specifiers = specifiers(alloc, &tree.specifiers)?;
    let lengths = lengths(alloc, &tree.lengths)?;
    Ok(Parameter {
        specifiers,
        stars: tree.stars,
        name: tree.name,
        lengths,
        span: tree.span,
    })
}

#[cycle(copy)]
fn parameters<'a>(alloc: Global, trees: &[Parameter<'a>]) -> Result<Vec<Parameter<'a>>, AllocError>
    ensures { IfOk result (λ c. parameters_from (map parameter_of c.items)
        ≡ spec.unprobed_parameter_list (parameters_from (map parameter_of trees.now))) }
{
    let mut copies = Vec::with_capacity(alloc, trees.len())?;
    for tree in trees {
        let copy = parameter(alloc, tree)?;
        copies.push(copy)?;
    }
    Ok(copies)
}
