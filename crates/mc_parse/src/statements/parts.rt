//! Expressions in statements.
ghost use Rattle.std.specs.Prelude.{◌≤◌};
ghost use Rattle.laws_grammar.specs.Rooms.{reading};
ghost use Rattle.laws_grammar.specs.Statements as spec;
ghost use Rattle.parse_cursor.specs.Cursors.{Gives, left_of};
ghost use Rattle.mc_tree.specs.Units.{option_of, value_of};
ghost use Rattle.parse_cursor.specs.Rules.{nonterminal_of};
ghost use Rattle.mc_parse.specs.steps.Fronts.{ended_optional, tested};
ghost use Rattle.mc_parse.specs.steps.Made.{seen_head};

use mc_span::Span;
use mc_tree::Expression;
use parse_cursor::cursor::{Cursor, place};
use parse_cursor::fault::Fault;
use parse_cursor::rule::Rule;
use parse_expressions::knot::expression;
use parse_expressions::read::Read;
use std::alloc::Global;

/// A keyword and the expression between parentheses after it.
#[derive(Drop)]
pub struct Headed<'a> {
    pub first: Span,
    pub test: Box<Expression<'a>>,
}

/// Reads an expression of fewer than `room` levels.
pub fn value<'a>(
    alloc: Global,
    tokens: &mut Cursor<'_, 'a>,
    room: u32,
    rule: Rule,
) -> Result<Box<Expression<'a>>, Fault>
    requires { room ≤ 1000 }
    ensures { Gives value_of ((reading room).expression (nonterminal_of rule) (left_of tokens.old))
        result (left_of tokens.new) }
{
    let Read { tree, .. } = expression(alloc, tokens, room, rule)?;
    Ok(tree)
}

/// Reads an expression that may be left out before this punctuator.
#[tactic(auto, unfolding(laws_grammar::specs::Statements::optional_of))]
pub fn optional<'a>(
    alloc: Global,
    tokens: &mut Cursor<'_, 'a>,
    room: u32,
    stop: &[u8],
) -> Result<Option<Box<Expression<'a>>>, Fault>
    requires { room ≤ 1000 }
    ensures { Gives option_of (spec.optional_of stop.now (reading room) (left_of tokens.old)) result
        (left_of tokens.new) }
{
    if tokens.sees(stop) {
        return Ok(None);
    }
    let value = value(alloc, tokens, room, Rule::Comma)?;
    Ok(Some(value))
}

/// Reads an expression that may be left out before this punctuator, and the punctuator.
#[inline(never)]
pub fn ended<'a>(
    alloc: Global,
    tokens: &mut Cursor<'_, 'a>,
    room: u32,
    stop: &[u8],
) -> Result<Option<Box<Expression<'a>>>, Fault>
    requires { room ≤ 1000 }
    ensures { Gives option_of (ended_optional stop.now room (left_of tokens.old)) result
        (left_of tokens.new) }
{
    let value = optional(alloc, tokens, room, stop)?;
    tokens.expect(stop)?;
    Ok(value)
}

/// Reads an expression between parentheses.
#[tactic(auto, unfolding(laws_grammar::specs::Statements::test_of))]
pub fn test<'a>(
    alloc: Global,
    tokens: &mut Cursor<'_, 'a>,
    room: u32,
) -> Result<Box<Expression<'a>>, Fault>
    requires { room ≤ 1000 }
    ensures { Gives value_of (spec.test_of (reading room) (left_of tokens.old)) result
        (left_of tokens.new) }
{
    tokens.expect(b"(")?;
    let value = value(alloc, tokens, room, Rule::Comma)?;
    tokens.expect(b")")?;
    Ok(value)
}

/// Reads a keyword and the expression between parentheses after it.
#[inline(never)]
pub fn keyword_and_test<'a>(
    alloc: Global,
    tokens: &mut Cursor<'_, 'a>,
    room: u32,
) -> Result<Headed<'a>, Fault>
    requires { room ≤ 1000 }
    ensures { Gives seen_head (tested room (left_of tokens.old)) result
        (left_of tokens.new) }
{
    let first = place(tokens.take()?);
    let test = test(alloc, tokens, room)?;
    Ok(Headed { first, test })
}
