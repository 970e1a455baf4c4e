//! Statements with `if` on the heap. The values are made in functions of their own: a statement is
//! costly to prove where it is handed on in the function that makes it.
ghost use Rattle.std.specs.Prelude.{◌≡◌};
ghost use Rattle.mc_tree.specs.Tree as tree;
ghost use Rattle.mc_tree.specs.Tree.{span_of_statement};
ghost use Rattle.mc_tree.specs.Units.{statement_of, value_of};
ghost use Rattle.mc_grammar.specs.Places as places;
ghost use Rattle.parse_makers.specs.Made.{IsMade, body_of};

use mc_span::Span;
use mc_tree::{Expression, Statement};
use parse_cursor::fault::Fault;
use parse_cursor::to;
use parse_cursor::values::on_heap;
use std::alloc::Global;

/// Where a statement on the heap stands.
pub fn place_of(statement: &Box<Statement<'_>>) -> Span
    ensures { result ≡ span_of_statement (body_of statement.now) }
{
    statement.span()
}

fn without_else<'a>(
    first: Span,
    test: Box<Expression<'a>>,
    chosen: Box<Statement<'a>>,
) -> Statement<'a>
    ensures { statement_of result ≡ tree.If (value_of test.entry) (body_of chosen.entry)
        (places.to first (span_of_statement (body_of chosen.entry))) }
{
    let span = to(first, place_of(&chosen));
    Statement::If { test, chosen, span }
}

fn with_else<'a>(
    first: Span,
    test: Box<Expression<'a>>,
    chosen: Box<Statement<'a>>,
    other: Box<Statement<'a>>,
) -> Statement<'a>
    ensures { statement_of result ≡ tree.IfElse (value_of test.entry) (body_of chosen.entry)
        (body_of other.entry) (places.to first (span_of_statement (body_of other.entry))) }
{
    let span = to(first, place_of(&other));
    Statement::IfElse {
        test,
        chosen,
        other,
        span,
    }
}

#[inline(never)]
pub fn if_only<'a>(
    alloc: Global,
    first: Span,
    test: Box<Expression<'a>>,
    chosen: Box<Statement<'a>>,
) -> Result<Box<Statement<'a>>, Fault>
    ensures { IsMade
        (tree.If (value_of test.entry) (body_of chosen.entry)
        (places.to first (span_of_statement (body_of chosen.entry)))) result }
{
    on_heap(alloc, without_else(first, test, chosen))
}

#[inline(never)]
pub fn if_else<'a>(
    alloc: Global,
    first: Span,
    test: Box<Expression<'a>>,
    chosen: Box<Statement<'a>>,
    other: Box<Statement<'a>>,
) -> Result<Box<Statement<'a>>, Fault>
    ensures { IsMade (tree.IfElse (value_of test.entry) (body_of chosen.entry) (body_of other.entry)
        (places.to first (span_of_statement (body_of other.entry)))) result }
{
    on_heap(alloc, with_else(first, test, chosen, other))
}
