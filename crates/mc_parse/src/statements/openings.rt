//! The opening of a statement: what stands before the statement that is a part of it (C17 6.8).
ghost use Rattle.std.specs.Prelude.{◌≤◌};
ghost use Rattle.laws_grammar.specs.Statements as spec;
ghost use Rattle.parse_cursor.specs.Cursors.{Gives, left_of};
ghost use Rattle.mc_parse.specs.steps.Fronts as fronts;
ghost use Rattle.mc_parse.specs.steps.Made.{heap_start_of, opening_of};

use crate::statements::beginnings::Opener;
use crate::statements::parts::{Headed, ended, keyword_and_test, optional, value};
use mc_span::Span;
use mc_tree::{Expression, ForStart, Identifier};
use parse_cursor::cursor::{Cursor, identifier, place};
use parse_cursor::fault::Fault;
use parse_cursor::rule::Rule;
use parse_cursor::to;
use parse_cursor::values::on_heap;
use parse_expressions::allowed::Allowed;
use parse_expressions::declarations::local;
use std::alloc::Global;

/// What stands before the one statement that is a part of another.
#[derive(Drop)]
pub enum Opening<'a> {
    Label {
        name: Identifier<'a>,
    },
    Case {
        label: Span,
        value: Box<Expression<'a>>,
    },
    Default {
        label: Span,
    },
    Switch {
        first: Span,
        value: Box<Expression<'a>>,
    },
    While {
        first: Span,
        test: Box<Expression<'a>>,
    },
    For {
        first: Span,
        start: Box<ForStart<'a>>,
        test: Option<Box<Expression<'a>>>,
        step: Option<Box<Expression<'a>>>,
    },
}

#[inline(never)]
fn label<'a>(alloc: Global, tokens: &mut Cursor<'_, 'a>) -> Result<Box<Opening<'a>>, Fault>
    ensures { Gives opening_of (fronts.label_opening (left_of tokens.old)) result
        (left_of tokens.new) }
{
    let name = identifier(tokens.take()?);
    tokens.take()?;
    on_heap(alloc, Opening::Label { name })
}

#[inline(never)]
fn case<'a>(
    alloc: Global,
    tokens: &mut Cursor<'_, 'a>,
    room: u32,
) -> Result<Box<Opening<'a>>, Fault>
    requires { room ≤ 1000 }
    ensures { Gives opening_of (fronts.case_opening room (left_of tokens.old)) result
        (left_of tokens.new) }
{
    let first = place(tokens.take()?);
    let value = value(alloc, tokens, room, Rule::Cond)?;
    let colon = place(tokens.expect(b":")?);
    let label = to(first, colon);
    on_heap(alloc, Opening::Case { label, value })
}

#[inline(never)]
fn default<'a>(alloc: Global, tokens: &mut Cursor<'_, 'a>) -> Result<Box<Opening<'a>>, Fault>
    ensures { Gives opening_of (fronts.default_opening (left_of tokens.old)) result
        (left_of tokens.new) }
{
    let first = place(tokens.take()?);
    let colon = place(tokens.expect(b":")?);
    let label = to(first, colon);
    on_heap(alloc, Opening::Default { label })
}

#[inline(never)]
fn switch<'a>(
    alloc: Global,
    tokens: &mut Cursor<'_, 'a>,
    room: u32,
) -> Result<Box<Opening<'a>>, Fault>
    requires { room ≤ 1000 }
    ensures { Gives opening_of (fronts.switch_opening room (left_of tokens.old)) result
        (left_of tokens.new) }
{
    let Headed { first, test } = keyword_and_test(alloc, tokens, room)?;
    on_heap(alloc, Opening::Switch { first, value: test })
}

#[inline(never)]
fn while_loop<'a>(
    alloc: Global,
    tokens: &mut Cursor<'_, 'a>,
    room: u32,
) -> Result<Box<Opening<'a>>, Fault>
    requires { room ≤ 1000 }
    ensures { Gives opening_of (fronts.while_opening room (left_of tokens.old)) result
        (left_of tokens.new) }
{
    let Headed { first, test } = keyword_and_test(alloc, tokens, room)?;
    on_heap(alloc, Opening::While { first, test })
}

/// What stands before the first `;` of a `for`, and that `;`.
#[inline(never)]
#[tactic(auto, unfolding(laws_grammar::specs::Statements::for_start_of))]
fn for_start<'a>(
    alloc: Global,
    tokens: &mut Cursor<'_, 'a>,
    room: u32,
) -> Result<Box<ForStart<'a>>, Fault>
    requires { room ≤ 1000 }
    ensures { Gives heap_start_of (spec.for_start_of room (left_of tokens.old)) result
        (left_of tokens.new) }
{
    if tokens.sees_specifiers() {
        let declaration = local(alloc, room, Allowed::Type, tokens)?;
        return on_heap(alloc, ForStart::Local { declaration });
    }
    let value = optional(alloc, tokens, room, b";")?;
    tokens.expect(b";")?;
    on_heap(alloc, ForStart::Expression { value })
}

#[inline(never)]
fn for_loop<'a>(
    alloc: Global,
    tokens: &mut Cursor<'_, 'a>,
    room: u32,
) -> Result<Box<Opening<'a>>, Fault>
    requires { room ≤ 1000 }
    ensures { Gives opening_of (fronts.for_opening room (left_of tokens.old)) result
        (left_of tokens.new) }
{
    let first = place(tokens.take()?);
    tokens.expect(b"(")?;
    let start = for_start(alloc, tokens, room)?;
    let test = ended(alloc, tokens, room, b";")?;
    let step = ended(alloc, tokens, room, b")")?;
    on_heap(
        alloc,
        Opening::For {
            first,
            start,
            test,
            step,
        },
    )
}

/// What stands before the part of a statement that has one.
#[inline(never)]
pub fn read_opening<'a>(
    alloc: Global,
    tokens: &mut Cursor<'_, 'a>,
    room: u32,
    opener: Opener,
) -> Result<Box<Opening<'a>>, Fault>
    requires { room ≤ 1000 }
    ensures { Gives opening_of (fronts.opening_by room opener (left_of tokens.old)) result
        (left_of tokens.new) }
{
    match opener {
        Opener::Label => label(alloc, tokens),
        Opener::Case => case(alloc, tokens, room),
        Opener::Default => default(alloc, tokens),
        Opener::Switch => switch(alloc, tokens, room),
        Opener::While => while_loop(alloc, tokens, room),
        Opener::For => for_loop(alloc, tokens, room),
    }
}
