//! Statements that have no statement as a part: jumps, expression statements and null statements
//! (C17 6.8.3, 6.8.6).
ghost use Rattle.std.specs.Prelude.{◌≤◌};
ghost use Rattle.laws_grammar.specs.Rooms.{reading};
ghost use Rattle.laws_grammar.specs.Statements as spec;
ghost use Rattle.parse_cursor.specs.Cursors.{Gives, left_of};
ghost use Rattle.parse_makers.specs.Made.{body_of};
ghost use Rattle.mc_parse.specs.steps.Fronts.{whole_by};

use crate::statements::beginnings::Whole;
use crate::statements::nodes;
use crate::statements::parts::{optional, value};
use mc_tree::Statement;
use parse_cursor::cursor::{Cursor, identifier, place};
use parse_cursor::fault::Fault;
use parse_cursor::rule::Rule;
use parse_cursor::to;
use parse_cursor::values::on_heap;
use std::alloc::Global;

#[inline(never)]
fn null<'a>(alloc: Global, tokens: &mut Cursor<'_, 'a>) -> Result<Box<Statement<'a>>, Fault>
    ensures { Gives body_of (spec.null_of (left_of tokens.old)) result
        (left_of tokens.new) }
{
    let span = place(tokens.take()?);
    on_heap(alloc, Statement::Null { span })
}

#[inline(never)]
fn expression_statement<'a>(
    alloc: Global,
    tokens: &mut Cursor<'_, 'a>,
    room: u32,
) -> Result<Box<Statement<'a>>, Fault>
    requires { room ≤ 1000 }
    ensures { Gives body_of
        (spec.expression_statement_of (reading room) (left_of tokens.old))
        result (left_of tokens.new) }
{
    let value = value(alloc, tokens, room, Rule::Comma)?;
    let last = tokens.expect(b";")?;
    let span = to(value.span(), place(last));
    on_heap(alloc, nodes::expression(value, span))
}

#[inline(never)]
fn goto<'a>(alloc: Global, tokens: &mut Cursor<'_, 'a>) -> Result<Box<Statement<'a>>, Fault>
    ensures { Gives body_of (spec.goto_of (left_of tokens.old)) result
        (left_of tokens.new) }
{
    let first = tokens.take()?;
    let name = tokens.expect_name()?;
    let last = tokens.expect(b";")?;
    let name = identifier(name);
    let span = to(place(first), place(last));
    on_heap(alloc, nodes::goto(name, span))
}

#[inline(never)]
fn continue_statement<'a>(
    alloc: Global,
    tokens: &mut Cursor<'_, 'a>,
) -> Result<Box<Statement<'a>>, Fault>
    ensures { Gives body_of (spec.continue_of (left_of tokens.old)) result
        (left_of tokens.new) }
{
    let first = tokens.take()?;
    let last = tokens.expect(b";")?;
    let span = to(place(first), place(last));
    on_heap(alloc, Statement::Continue { span })
}

#[inline(never)]
fn break_statement<'a>(
    alloc: Global,
    tokens: &mut Cursor<'_, 'a>,
) -> Result<Box<Statement<'a>>, Fault>
    ensures { Gives body_of (spec.break_of (left_of tokens.old)) result
        (left_of tokens.new) }
{
    let first = tokens.take()?;
    let last = tokens.expect(b";")?;
    let span = to(place(first), place(last));
    on_heap(alloc, Statement::Break { span })
}

#[inline(never)]
fn return_statement<'a>(
    alloc: Global,
    tokens: &mut Cursor<'_, 'a>,
    room: u32,
) -> Result<Box<Statement<'a>>, Fault>
    requires { room ≤ 1000 }
    ensures { Gives body_of (spec.return_of (reading room) (left_of tokens.old))
        result
        (left_of tokens.new) }
{
    let first = tokens.take()?;
    let value = optional(alloc, tokens, room, b";")?;
    let last = tokens.expect(b";")?;
    let span = to(place(first), place(last));
    on_heap(alloc, nodes::return_from(value, span))
}

/// Reads a statement that has no statement as a part.
#[inline(never)]
pub fn whole<'a>(
    alloc: Global,
    tokens: &mut Cursor<'_, 'a>,
    room: u32,
    kind: Whole,
) -> Result<Box<Statement<'a>>, Fault>
    requires { room ≤ 1000 }
    ensures { Gives body_of (whole_by room kind (left_of tokens.old)) result (left_of tokens.new) }
{
    match kind {
        Whole::Null => null(alloc, tokens),
        Whole::Goto => goto(alloc, tokens),
        Whole::Continue => continue_statement(alloc, tokens),
        Whole::Break => break_statement(alloc, tokens),
        Whole::Return => return_statement(alloc, tokens, room),
        Whole::Expression => expression_statement(alloc, tokens, room),
    }
}
