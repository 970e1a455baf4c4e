//! The end of a statement, after the statement that is a part of it.
ghost use Rattle.std.specs.Prelude.{◌≡◌, ◌≤◌};
ghost use Rattle.mc_tree.specs.Units.{statement_of};
ghost use Rattle.parse_cursor.specs.Cursors.{Gives, left_of};
ghost use Rattle.mc_parse.specs.steps.Fronts as fronts;
ghost use Rattle.mc_parse.specs.steps.Made.{opening_of, seen_opening, seen_test};
ghost use Rattle.parse_makers.specs.Made.{IsMade, body_of};

use crate::statements::nodes::{case, default, do_while, for_loop, labeled, switch, while_loop};
use crate::statements::openings::Opening;
use crate::statements::parts::test;
use mc_span::Span;
use mc_tree::{Expression, Statement};
use parse_cursor::cursor::{Cursor, place};
use parse_cursor::fault::Fault;
use parse_cursor::to;
use parse_cursor::values::on_heap;
use std::alloc::Global;

/// The test of a `do`, and where it ends.
#[derive(Drop)]
pub struct Tested<'a> {
    pub test: Box<Expression<'a>>,
    pub last: Span,
}

#[inline(never)]
fn test_of_do<'a>(
    alloc: Global,
    tokens: &mut Cursor<'_, 'a>,
    room: u32,
) -> Result<Tested<'a>, Fault>
    requires { room ≤ 1000 }
    ensures { Gives seen_test (fronts.do_test room (left_of tokens.old)) result
        (left_of tokens.new) }
{
    tokens.expect_keyword(b"while")?;
    let test = test(alloc, tokens, room)?;
    let last = place(tokens.expect(b";")?);
    Ok(Tested { test, last })
}

/// The test of a `do`, after its statement.
#[inline(never)]
pub fn end_of_do<'a>(
    alloc: Global,
    tokens: &mut Cursor<'_, 'a>,
    room: u32,
    first: Span,
    body: Box<Statement<'a>>,
) -> Result<Box<Statement<'a>>, Fault>
    requires { room ≤ 1000 }
    ensures { Gives body_of (fronts.do_rest room first (body_of body.entry) (left_of tokens.old))
        result (left_of tokens.new) }
{
    let Tested { test, last } = test_of_do(alloc, tokens, room)?;
    on_heap(alloc, do_while(to(first, last), body, test))
}

/// A statement of its opening and the statement that is its part.
fn closed<'a>(opening: Box<Opening<'a>>, body: Box<Statement<'a>>) -> Statement<'a>
    ensures { statement_of result
        ≡ fronts.closed (seen_opening opening.entry.value) (body_of body.entry) }
{
    match Box::into_inner(opening) {
        Opening::Label { name } => labeled(name, body),
        Opening::Case { label, value } => case(label, value, body),
        Opening::Default { label } => default(label, body),
        Opening::Switch { first, value } => switch(first, value, body),
        Opening::While { first, test } => while_loop(first, test, body),
        Opening::For {
            first,
            start,
            test,
            step,
        } => for_loop(first, start, test, step, body),
    }
}

/// The statement that was opened, with the statement that is its part.
#[inline(never)]
pub fn end<'a>(
    alloc: Global,
    opening: Box<Opening<'a>>,
    body: Box<Statement<'a>>,
) -> Result<Box<Statement<'a>>, Fault>
    ensures { IsMade (fronts.closed (opening_of opening.entry) (body_of body.entry)) result }
{
    on_heap(alloc, closed(opening, body))
}
