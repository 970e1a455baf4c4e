//! Makers of expressions.
ghost use Rattle.std.specs.Prelude.{◌≡◌, IfOk, map};
ghost use Rattle.mc_tree.specs.Tree as tree;
ghost use Rattle.mc_tree.specs.Units.{value_of};
ghost use Rattle.mc_tree.specs.Views.{
  expression_of,
  expressions_from,
  name_of,
  specifier_of,
  specifiers_from,
};

use crate::copies::heap::on_heap;
use mc_tree::{
    AssignmentOperator, BinaryOperator, Expression, Identifier, Span, Specifier, StepOperator,
    UnaryOperator,
};
use std::alloc::{AllocError, Global};

#[inline(never)]
pub fn name<'a>(alloc: Global, name: Identifier<'a>) -> Result<Box<Expression<'a>>, AllocError>
    ensures { IfOk result (λ c. value_of c ≡ tree.Named (name_of name.entry)) }
{
    on_heap(alloc, Expression::Name { name })
}

#[inline(never)]
pub fn constant<'a>(
    alloc: Global,
    value: u64,
    decimal: bool,
    unsigned: bool,
    longs: u32,
    span: Span,
) -> Result<Box<Expression<'a>>, AllocError>
    ensures { IfOk result (λ c. value_of c ≡ tree.Constant value decimal unsigned longs span) }
{
    on_heap(
        alloc,
        Expression::Constant {
            value,
            decimal,
            unsigned,
            longs,
            span,
        },
    )
}

#[inline(never)]
pub fn character<'a>(
    alloc: Global,
    value: i32,
    span: Span,
) -> Result<Box<Expression<'a>>, AllocError>
    ensures { IfOk result (λ c. value_of c ≡ tree.Character value span) }
{
    on_heap(alloc, Expression::Character { value, span })
}

#[inline(never)]
pub fn parenthesized<'a>(
    alloc: Global,
    inner: Box<Expression<'a>>,
    span: Span,
) -> Result<Box<Expression<'a>>, AllocError>
    ensures { IfOk result (λ c. value_of c ≡ tree.Parenthesized (value_of inner.entry) span) }
{
    on_heap(alloc, Expression::Parenthesized { inner, span })
}

#[inline(never)]
pub fn call<'a>(
    alloc: Global,
    name: Identifier<'a>,
    arguments: Vec<Expression<'a>>,
    span: Span,
) -> Result<Box<Expression<'a>>, AllocError>
    ensures { IfOk result (λ c. value_of c
        ≡ tree.Call (name_of name.entry)
        (expressions_from (map expression_of arguments.entry.items)) span) }
{
    on_heap(
        alloc,
        Expression::Call {
            name,
            arguments,
            span,
        },
    )
}

#[inline(never)]
pub fn index<'a>(
    alloc: Global,
    array: Box<Expression<'a>>,
    index: Box<Expression<'a>>,
    span: Span,
) -> Result<Box<Expression<'a>>, AllocError>
    ensures { IfOk result (λ c. value_of c
        ≡ tree.Index (value_of array.entry) (value_of index.entry) span) }
{
    on_heap(alloc, Expression::Index { array, index, span })
}

#[inline(never)]
pub fn member<'a>(
    alloc: Global,
    object: Box<Expression<'a>>,
    name: Identifier<'a>,
    span: Span,
) -> Result<Box<Expression<'a>>, AllocError>
    ensures { IfOk result (λ c. value_of c
        ≡ tree.Member (value_of object.entry) (name_of name.entry) span) }
{
    on_heap(alloc, Expression::Member { object, name, span })
}

#[inline(never)]
pub fn postfix_step<'a>(
    alloc: Global,
    operator: StepOperator,
    operand: Box<Expression<'a>>,
    span: Span,
) -> Result<Box<Expression<'a>>, AllocError>
    ensures { IfOk result (λ c. value_of c
        ≡ tree.PostfixStep operator (value_of operand.entry) span) }
{
    on_heap(
        alloc,
        Expression::PostfixStep {
            operator,
            operand,
            span,
        },
    )
}

#[inline(never)]
pub fn prefix_step<'a>(
    alloc: Global,
    operator: StepOperator,
    operand: Box<Expression<'a>>,
    span: Span,
) -> Result<Box<Expression<'a>>, AllocError>
    ensures { IfOk result (λ c. value_of c
        ≡ tree.PrefixStep operator (value_of operand.entry) span) }
{
    on_heap(
        alloc,
        Expression::PrefixStep {
            operator,
            operand,
            span,
        },
    )
}

#[inline(never)]
pub fn unary<'a>(
    alloc: Global,
    operator: UnaryOperator,
    operand: Box<Expression<'a>>,
    span: Span,
) -> Result<Box<Expression<'a>>, AllocError>
    ensures { IfOk result (λ c. value_of c ≡ tree.Unary operator (value_of operand.entry) span) }
{
    on_heap(
        alloc,
        Expression::Unary {
            operator,
            operand,
            span,
        },
    )
}

#[inline(never)]
pub fn cast<'a>(
    alloc: Global,
    specifiers: Vec<Specifier<'a>>,
    stars: u32,
    type_span: Span,
    operand: Box<Expression<'a>>,
    span: Span,
) -> Result<Box<Expression<'a>>, AllocError>
    ensures { IfOk result (λ c. value_of c
        ≡ tree.Cast
        (tree.type_name (specifiers_from (map specifier_of specifiers.entry.items)) stars type_span)
        (value_of operand.entry) span) }
{
    on_heap(
        alloc,
        Expression::Cast {
            specifiers,
            stars,
            type_span,
            operand,
            span,
        },
    )
}

#[inline(never)]
pub fn binary<'a>(
    alloc: Global,
    operator: BinaryOperator,
    left: Box<Expression<'a>>,
    right: Box<Expression<'a>>,
    span: Span,
) -> Result<Box<Expression<'a>>, AllocError>
    ensures { IfOk result (λ c. value_of c
        ≡ tree.Binary operator (value_of left.entry) (value_of right.entry) span) }
{
    on_heap(
        alloc,
        Expression::Binary {
            operator,
            left,
            right,
            span,
        },
    )
}

#[inline(never)]
pub fn conditional<'a>(
    alloc: Global,
    test: Box<Expression<'a>>,
    chosen: Box<Expression<'a>>,
    other: Box<Expression<'a>>,
    span: Span,
) -> Result<Box<Expression<'a>>, AllocError>
    ensures { IfOk result (λ c. value_of c
        ≡ tree.Conditional (value_of test.entry) (value_of chosen.entry) (value_of other.entry)
        span) }
{
    on_heap(
        alloc,
        Expression::Conditional {
            test,
            chosen,
            other,
            span,
        },
    )
}

#[inline(never)]
pub fn assignment<'a>(
    alloc: Global,
    operator: AssignmentOperator,
    target: Box<Expression<'a>>,
    value: Box<Expression<'a>>,
    span: Span,
) -> Result<Box<Expression<'a>>, AllocError>
    ensures { IfOk result (λ c. value_of c
        ≡ tree.Assignment operator (value_of target.entry) (value_of value.entry) span) }
{
    on_heap(
        alloc,
        Expression::Assignment {
            operator,
            target,
            value,
            span,
        },
    )
}

#[inline(never)]
pub fn comma<'a>(
    alloc: Global,
    operands: Vec<Expression<'a>>,
    span: Span,
) -> Result<Box<Expression<'a>>, AllocError>
    ensures { IfOk result (λ c. value_of c
        ≡ tree.Comma (expressions_from (map expression_of operands.entry.items)) span) }
{
    on_heap(alloc, Expression::Comma { operands, span })
}
