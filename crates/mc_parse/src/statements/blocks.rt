//! Blocks (C17 6.8.2).
ghost use Rattle.std.specs.Prelude.{◌≡◌, ◌≤◌, ◌∷◌, ◌++◌, [], IfOk, codes, map};
ghost use Rattle.mc_tree.specs.Units.{block_item_of};
ghost use Rattle.mc_grammar.specs.Words.{sees};
ghost use Rattle.laws_grammar.specs.Lists.{listed, until_list};
ghost use Rattle.laws_grammar.specs.Statements as spec;
ghost use Rattle.parse_cursor.specs.Cursors.{Gives, left_of};
ghost use Rattle.mc_parse.specs.steps.Made.{block_of};

use crate::statements::statement;
use mc_span::Span;
use mc_tree::BlockItem;
use parse_cursor::cursor::{Cursor, place};
use parse_cursor::fault::Fault;
use parse_cursor::to;
use parse_expressions::allowed::Allowed;
use parse_expressions::declarations::local;
use std::alloc::{AllocError, Global};

/// The items of a block, and where it stands.
#[derive(Drop)]
pub struct Block<'a> {
    pub items: Vec<BlockItem<'a>>,
    pub span: Span,
}

#[inline(never)]
#[tactic(auto, using(parse_expressions::proofs::Lists::map_push))]
fn push<'a>(all: &mut Vec<BlockItem<'a>>, one: BlockItem<'a>) -> Result<(), AllocError>
    ensures { IfOk result (λ _. map block_item_of all.new.items ≡ map block_item_of all.old.items
        ++ block_item_of one.entry ∷ []) }
{
    parse_cursor::values::push(all, one)
}

/// A declaration or a statement.
#[cycle(statements)]
#[inline(never)]
#[tactic(auto, unfolding(laws_grammar::specs::Statements::block_item_of))]
fn block_item<'a>(
    alloc: Global,
    tokens: &mut Cursor<'_, 'a>,
    room: u32,
) -> Result<BlockItem<'a>, Fault>
    requires { room ≤ 1000 }
    ensures { Gives block_item_of (spec.block_item_of room (spec.statement_of room)
        (left_of tokens.old)) result (left_of tokens.new) }
{
    if tokens.sees_specifiers() {
        let declaration = local(alloc, room, Allowed::Local, tokens)?;
        return Ok(BlockItem::Local { declaration });
    }
    let statement = statement(alloc, tokens, room)?;
    Ok(BlockItem::Statement { statement })
}

/// What stands between the braces.
#[cycle(statements)]
#[tactic(auto, using(parse_expressions::proofs::Lists::until_steps))]
fn block_items<'a>(
    alloc: Global,
    tokens: &mut Cursor<'_, 'a>,
    room: u32,
) -> Result<Vec<BlockItem<'a>>, Fault>
    requires { room ≤ 1000 }
    ensures { Gives (λ all. map block_item_of all.items)
        (listed (λ turns. until_list turns (sees (codes "}"))
        (spec.block_item_of room (spec.statement_of room)) []) (left_of tokens.old)) result
        (left_of tokens.new) }
{
    let mut all = Vec::new(alloc);
    for _turn in 0..tokens.turns() {
        if tokens.sees(b"}") {
            return Ok(all);
        }
        let one = block_item(alloc, tokens, room)?;
        push(&mut all, one)?;
    }
    Err(Fault::Syntax)
}

/// A block whose items have fewer than `room` levels.
#[cycle(statements)]
#[tactic(auto, unfolding(laws_grammar::specs::Statements::compound_of))]
pub fn compound<'a>(
    alloc: Global,
    tokens: &mut Cursor<'_, 'a>,
    room: u32,
) -> Result<Block<'a>, Fault>
    requires { room ≤ 1000 }
    ensures { Gives block_of (spec.compound_of room (spec.statement_of room) (left_of tokens.old))
        result (left_of tokens.new) }
{
    let first = tokens.expect(b"{")?;
    let items = block_items(alloc, tokens, room)?;
    let last = tokens.expect(b"}")?;
    let span = to(place(first), place(last));
    Ok(Block { items, span })
}
