//! Statements (C17 6.8): a statement is read by its front, the statements that are its parts, and
//! its end, so that few functions call one another.
ghost use Rattle.std.specs.Prelude.{◌≤◌};
ghost use Rattle.laws_grammar.specs.Statements as spec;
ghost use Rattle.parse_cursor.specs.Cursors.{Gives, left_of};
ghost use Rattle.mc_parse.specs.steps.Fronts as fronts;
ghost use Rattle.parse_makers.specs.Made.{body_of};
ghost use Rattle.mc_tree.specs.Units.{value_of};

mod beginnings;
pub mod blocks;
mod ends;
mod nodes;
mod openings;
mod parts;
mod wholes;

use crate::statements::beginnings::{Beginning, next_begins};
use crate::statements::blocks::{Block, compound};
use crate::statements::ends::{end, end_of_do};
use crate::statements::openings::read_opening;
use crate::statements::parts::{Headed, keyword_and_test};
use crate::statements::wholes::whole;
use mc_span::Span;
use mc_tree::{Expression, Statement};
use parse_cursor::cursor::{Cursor, place};
use parse_cursor::fault::Fault;
use parse_makers::statements::{if_else, if_only};
use std::alloc::Global;

/// Reads a statement of fewer than `room` levels.
#[cycle(statements)]
#[tactic(auto, using(crate::proofs::Levels::statement_steps))]
pub fn statement<'a>(
    alloc: Global,
    tokens: &mut Cursor<'_, 'a>,
    room: u32,
) -> Result<Box<Statement<'a>>, Fault>
    requires { room ≤ 1000 }
    ensures { Gives body_of (spec.statement_of room (left_of tokens.old)) result
        (left_of tokens.new) }
{
    if room < 2 {
        return Err(Fault::Syntax);
    }
    if tokens.sees(b"{") {
        let Block { items, span } = compound(alloc, tokens, room - 1)?;
        return nodes::compound(alloc, items, span);
    }
    other_than_block(alloc, tokens, room - 1)
}

/// Reads a statement that is not a block, whose parts have fewer than `room` levels. It stands
/// apart from `statement`, so that its front takes no room of the stack where blocks nest.
#[cycle(statements)]
#[inline(never)]
fn other_than_block<'a>(
    alloc: Global,
    tokens: &mut Cursor<'_, 'a>,
    room: u32,
) -> Result<Box<Statement<'a>>, Fault>
    requires { room ≤ 1000 }
    ensures { Gives body_of (fronts.other_of room (spec.statement_of room) (left_of tokens.old))
        result (left_of tokens.new) }
{
    match next_begins(tokens) {
        Beginning::Whole { kind } => whole(alloc, tokens, room, kind),
        Beginning::If => {
            let Headed { first, test } = keyword_and_test(alloc, tokens, room)?;
            choice(alloc, tokens, room, first, test)
        }
        Beginning::Do => do_loop(alloc, tokens, room),
        Beginning::Part { opener } => {
            let opening = read_opening(alloc, tokens, room, opener)?;
            let body = statement(alloc, tokens, room)?;
            end(alloc, opening, body)
        }
    }
}

/// The statements of an `if`; an `else` after the first belongs to it.
#[cycle(statements)]
#[inline(never)]
#[tactic(auto, unfolding(crate::specs::steps::Fronts::choice_of))]
fn choice<'a>(
    alloc: Global,
    tokens: &mut Cursor<'_, 'a>,
    room: u32,
    first: Span,
    test: Box<Expression<'a>>,
) -> Result<Box<Statement<'a>>, Fault>
    requires { room ≤ 1000 }
    ensures { Gives body_of (fronts.choice_of (spec.statement_of room) first (value_of test.entry)
        (left_of tokens.old)) result (left_of tokens.new) }
{
    let chosen = statement(alloc, tokens, room)?;
    if !tokens.sees_keyword(b"else") {
        return if_only(alloc, first, test, chosen);
    }
    tokens.take()?;
    let other = statement(alloc, tokens, room)?;
    if_else(alloc, first, test, chosen, other)
}

/// A `do`: its statement stands before its test.
#[cycle(statements)]
#[inline(never)]
fn do_loop<'a>(
    alloc: Global,
    tokens: &mut Cursor<'_, 'a>,
    room: u32,
) -> Result<Box<Statement<'a>>, Fault>
    requires { room ≤ 1000 }
    ensures { Gives body_of (fronts.do_by room (spec.statement_of room) (left_of tokens.old))
        result (left_of tokens.new) }
{
    let first = place(tokens.take()?);
    let body = statement(alloc, tokens, room)?;
    end_of_do(alloc, tokens, room, first, body)
}
