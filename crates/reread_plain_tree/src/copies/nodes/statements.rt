//! Makers of statements.
ghost use Rattle.std.specs.Prelude.{◌≡◌, IfOk, map};
ghost use Rattle.mc_tree.specs.Tree as tree;
ghost use Rattle.mc_tree.specs.Views.{name_of};
ghost use Rattle.mc_tree.specs.Units.{block_from, block_item_of, option_of, start_of, value_of};
ghost use Rattle.reread_plain_tree.specs.steps.Heaps.{body_of};

use crate::copies::heap::on_heap;
use mc_tree::{BlockItem, Expression, ForStart, Identifier, Span, Statement};
use std::alloc::{AllocError, Global};

#[inline(never)]
pub fn compound<'a>(
    alloc: Global,
    items: Vec<BlockItem<'a>>,
    span: Span,
) -> Result<Box<Statement<'a>>, AllocError>
    ensures { IfOk result (λ c. body_of c
        ≡ tree.Compound (block_from (map block_item_of items.entry.items)) span) }
{
    on_heap(alloc, Statement::Compound { items, span })
}

#[inline(never)]
pub fn null<'a>(alloc: Global, span: Span) -> Result<Box<Statement<'a>>, AllocError>
    ensures { IfOk result (λ c. body_of c ≡ tree.Null span) }
{
    on_heap(alloc, Statement::Null { span })
}

#[inline(never)]
pub fn expression<'a>(
    alloc: Global,
    value: Box<Expression<'a>>,
    span: Span,
) -> Result<Box<Statement<'a>>, AllocError>
    ensures { IfOk result (λ c. body_of c ≡ tree.ExpressionStatement (value_of value.entry) span) }
{
    on_heap(alloc, Statement::Expression { value, span })
}

#[inline(never)]
pub fn if_only<'a>(
    alloc: Global,
    test: Box<Expression<'a>>,
    chosen: Box<Statement<'a>>,
    span: Span,
) -> Result<Box<Statement<'a>>, AllocError>
    ensures { IfOk result (λ c. body_of c
        ≡ tree.If (value_of test.entry) (body_of chosen.entry) span) }
{
    on_heap(alloc, Statement::If { test, chosen, span })
}

#[inline(never)]
pub fn if_else<'a>(
    alloc: Global,
    test: Box<Expression<'a>>,
    chosen: Box<Statement<'a>>,
    other: Box<Statement<'a>>,
    span: Span,
) -> Result<Box<Statement<'a>>, AllocError>
    ensures { IfOk result (λ c. body_of c
        ≡ tree.IfElse (value_of test.entry) (body_of chosen.entry) (body_of other.entry) span) }
{
    on_heap(
        alloc,
        Statement::IfElse {
            test,
            chosen,
            other,
            span,
        },
    )
}

#[inline(never)]
pub fn switch<'a>(
    alloc: Global,
    value: Box<Expression<'a>>,
    body: Box<Statement<'a>>,
    span: Span,
) -> Result<Box<Statement<'a>>, AllocError>
    ensures { IfOk result (λ c. body_of c
        ≡ tree.Switch (value_of value.entry) (body_of body.entry) span) }
{
    on_heap(alloc, Statement::Switch { value, body, span })
}

#[inline(never)]
pub fn while_loop<'a>(
    alloc: Global,
    test: Box<Expression<'a>>,
    body: Box<Statement<'a>>,
    span: Span,
) -> Result<Box<Statement<'a>>, AllocError>
    ensures { IfOk result (λ c. body_of c
        ≡ tree.While (value_of test.entry) (body_of body.entry) span) }
{
    on_heap(alloc, Statement::While { test, body, span })
}

#[inline(never)]
pub fn do_while<'a>(
    alloc: Global,
    body: Box<Statement<'a>>,
    test: Box<Expression<'a>>,
    span: Span,
) -> Result<Box<Statement<'a>>, AllocError>
    ensures { IfOk result (λ c. body_of c
        ≡ tree.DoWhile (body_of body.entry) (value_of test.entry) span) }
{
    on_heap(alloc, Statement::DoWhile { body, test, span })
}

#[inline(never)]
pub fn for_loop<'a>(
    alloc: Global,
    start: Box<ForStart<'a>>,
    test: Option<Box<Expression<'a>>>,
    step: Option<Box<Expression<'a>>>,
    body: Box<Statement<'a>>,
    span: Span,
) -> Result<Box<Statement<'a>>, AllocError>
    ensures { IfOk result (λ c. body_of c
        ≡ tree.For (start_of start.entry.value) (option_of test.entry) (option_of step.entry)
        (body_of body.entry) span) }
{
    on_heap(
        alloc,
        Statement::For {
            start,
            test,
            step,
            body,
            span,
        },
    )
}

#[inline(never)]
pub fn case<'a>(
    alloc: Global,
    value: Box<Expression<'a>>,
    label: Span,
    body: Box<Statement<'a>>,
    span: Span,
) -> Result<Box<Statement<'a>>, AllocError>
    ensures { IfOk result (λ c. body_of c
        ≡ tree.Case (value_of value.entry) label (body_of body.entry) span) }
{
    on_heap(
        alloc,
        Statement::Case {
            value,
            label,
            body,
            span,
        },
    )
}

#[inline(never)]
pub fn default<'a>(
    alloc: Global,
    label: Span,
    body: Box<Statement<'a>>,
    span: Span,
) -> Result<Box<Statement<'a>>, AllocError>
    ensures { IfOk result (λ c. body_of c ≡ tree.Default label (body_of body.entry) span) }
{
    on_heap(alloc, Statement::Default { label, body, span })
}

#[inline(never)]
pub fn labeled<'a>(
    alloc: Global,
    name: Identifier<'a>,
    body: Box<Statement<'a>>,
    span: Span,
) -> Result<Box<Statement<'a>>, AllocError>
    ensures { IfOk result (λ c. body_of c
        ≡ tree.Label (name_of name.entry) (body_of body.entry) span) }
{
    on_heap(alloc, Statement::Label { name, body, span })
}

#[inline(never)]
pub fn goto<'a>(
    alloc: Global,
    name: Identifier<'a>,
    span: Span,
) -> Result<Box<Statement<'a>>, AllocError>
    ensures { IfOk result (λ c. body_of c ≡ tree.Goto (name_of name.entry) span) }
{
    on_heap(alloc, Statement::Goto { name, span })
}

#[inline(never)]
pub fn break_out<'a>(alloc: Global, span: Span) -> Result<Box<Statement<'a>>, AllocError>
    ensures { IfOk result (λ c. body_of c ≡ tree.Break span) }
{
    on_heap(alloc, Statement::Break { span })
}

#[inline(never)]
pub fn continue_on<'a>(alloc: Global, span: Span) -> Result<Box<Statement<'a>>, AllocError>
    ensures { IfOk result (λ c. body_of c ≡ tree.Continue span) }
{
    on_heap(alloc, Statement::Continue { span })
}

#[inline(never)]
pub fn return_from<'a>(
    alloc: Global,
    value: Option<Box<Expression<'a>>>,
    span: Span,
) -> Result<Box<Statement<'a>>, AllocError>
    ensures { IfOk result (λ c. body_of c ≡ tree.Return (option_of value.entry) span) }
{
    on_heap(alloc, Statement::Return { value, span })
}
