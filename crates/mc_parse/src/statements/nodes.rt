//! Makers of statements, one for each kind: a statement is costly to prove where it is made in a
//! branch or handed on at once.
ghost use Rattle.std.specs.Prelude.{◌≡◌, map};
ghost use Rattle.mc_tree.specs.Tree as tree;
ghost use Rattle.mc_tree.specs.Tree.{span_of_statement};
ghost use Rattle.mc_tree.specs.Views.{name_of};
ghost use Rattle.mc_tree.specs.Units.{block_from, block_item_of, option_of, start_of, statement_of, value_of};
ghost use Rattle.mc_grammar.specs.Places as places;
ghost use Rattle.parse_makers.specs.Made.{IsMade, body_of};

use mc_span::Span;
use mc_tree::{BlockItem, Expression, ForStart, Identifier, Statement};
use parse_cursor::fault::Fault;
use parse_cursor::to;
use parse_cursor::values::on_heap;
use parse_makers::statements::place_of;
use std::alloc::Global;

/// A block on the heap. It is kept out of the frames of the recursion.
#[inline(never)]
pub fn compound<'a>(
    alloc: Global,
    items: Vec<BlockItem<'a>>,
    span: Span,
) -> Result<Box<Statement<'a>>, Fault>
    ensures { IsMade (tree.Compound (block_from (map block_item_of items.entry.items)) span)
        result }
{
    on_heap(alloc, Statement::Compound { items, span })
}

pub fn switch<'a>(
    first: Span,
    value: Box<Expression<'a>>,
    body: Box<Statement<'a>>,
) -> Statement<'a>
    ensures { statement_of result ≡ tree.Switch (value_of value.entry) (body_of body.entry)
        (places.to first (span_of_statement (body_of body.entry))) }
{
    let span = to(first, place_of(&body));
    Statement::Switch { value, body, span }
}

pub fn while_loop<'a>(
    first: Span,
    test: Box<Expression<'a>>,
    body: Box<Statement<'a>>,
) -> Statement<'a>
    ensures { statement_of result ≡ tree.While (value_of test.entry) (body_of body.entry)
        (places.to first (span_of_statement (body_of body.entry))) }
{
    let span = to(first, place_of(&body));
    Statement::While { test, body, span }
}

pub fn do_while<'a>(
    span: Span,
    body: Box<Statement<'a>>,
    test: Box<Expression<'a>>,
) -> Statement<'a>
    ensures { statement_of result ≡ tree.DoWhile (body_of body.entry) (value_of test.entry) span }
{
    Statement::DoWhile { body, test, span }
}

pub fn for_loop<'a>(
    first: Span,
    start: Box<ForStart<'a>>,
    test: Option<Box<Expression<'a>>>,
    step: Option<Box<Expression<'a>>>,
    body: Box<Statement<'a>>,
) -> Statement<'a>
    ensures { statement_of result ≡ tree.For (start_of start.entry.value) (option_of test.entry)
        (option_of step.entry) (body_of body.entry)
        (places.to first (span_of_statement (body_of body.entry))) }
{
    let span = to(first, place_of(&body));
    Statement::For {
        start,
        test,
        step,
        body,
        span,
    }
}

pub fn case<'a>(label: Span, value: Box<Expression<'a>>, body: Box<Statement<'a>>) -> Statement<'a>
    ensures { statement_of result ≡ tree.Case (value_of value.entry) label (body_of body.entry)
        (places.to label (span_of_statement (body_of body.entry))) }
{
    let span = to(label, place_of(&body));
    Statement::Case {
        value,
        label,
        body,
        span,
    }
}

pub fn default<'a>(label: Span, body: Box<Statement<'a>>) -> Statement<'a>
    ensures { statement_of result ≡ tree.Default label (body_of body.entry)
        (places.to label (span_of_statement (body_of body.entry))) }
{
    let span = to(label, place_of(&body));
    Statement::Default { label, body, span }
}

pub fn labeled<'a>(name: Identifier<'a>, body: Box<Statement<'a>>) -> Statement<'a>
    ensures { statement_of result ≡ tree.Label (name_of name.entry) (body_of body.entry)
        (places.to name.entry.span (span_of_statement (body_of body.entry))) }
{
    let span = to(name.span, place_of(&body));
    Statement::Label { name, body, span }
}

pub fn goto<'a>(name: Identifier<'a>, span: Span) -> Statement<'a>
    ensures { statement_of result ≡ tree.Goto (name_of name.entry) span }
{
    Statement::Goto { name, span }
}

pub fn return_from<'a>(value: Option<Box<Expression<'a>>>, span: Span) -> Statement<'a>
    ensures { statement_of result ≡ tree.Return (option_of value.entry) span }
{
    Statement::Return { value, span }
}

pub fn expression<'a>(value: Box<Expression<'a>>, span: Span) -> Statement<'a>
    ensures { statement_of result ≡ tree.ExpressionStatement (value_of value.entry) span }
{
    Statement::Expression { value, span }
}
