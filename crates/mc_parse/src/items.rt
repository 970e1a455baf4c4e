//! External declarations, and a whole source (C17 6.9).
ghost use Rattle.std.specs.Prelude.{◌≡◌, ◌≤◌, ◌∷◌, ◌++◌, [], IfOk};
ghost use Rattle.mc_tree.specs.Tree as tree;
ghost use Rattle.mc_tree.specs.Units.{block_from, item_of, items_of};
ghost use Rattle.mc_tree.specs.Views.{declarator_of};
ghost use Rattle.mc_grammar.specs.Places as places;
ghost use Rattle.laws_grammar.specs.Items as spec;
ghost use Rattle.parse_cursor.specs.Cursors.{Gives, left_of};
ghost use Rattle.parse_expressions.specs.Heads.{words_of};
ghost use Rattle.mc_parse.specs.steps.Headed.{head_item_of};
ghost use Rattle.mc_parse.specs.steps.Made.{block_of, heap_item_of};

use crate::statements::blocks::{Block, compound};
use mc_tree::{Declarator, Item};
use parse_cursor::cursor::Cursor;
use parse_cursor::fault::Fault;
use parse_cursor::to;
use parse_cursor::values::{on_heap, push_boxed};
use parse_expressions::allowed::{Allowed, is_typedef};
use parse_expressions::declarations::{Head, declared, undeclared};
use parse_expressions::knot::{declarator, specifiers};
use std::alloc::{AllocError, Global};

fn is_function(declarator: &Declarator<'_>) -> bool
    ensures { result ≡ spec.is_function (declarator_of declarator.now) }
{
    !matches!(declarator, Declarator::Object { .. })
}

fn definition<'a>(head: Head<'a>, declarator: Declarator<'a>, block: Block<'a>) -> Item<'a>
    ensures { item_of result ≡ tree.Defined (words_of head.entry) (declarator_of declarator.entry)
        (block_from (block_of block.entry).items) (places.to head.entry.start block.entry.span) }
{
    let Head { start, specifiers } = head;
    let Block { items: body, span } = block;
    Item::Defined {
        specifiers,
        declarator,
        body,
        span: to(start, span),
    }
}

/// The body of a function, whose declarator is read.
#[inline(never)]
#[tactic(auto, using(crate::proofs::Levels::body_steps), unfolding(laws_grammar::specs::Items::defined_of))]
fn defined<'a>(
    alloc: Global,
    room: u32,
    head: Head<'a>,
    declarator: Declarator<'a>,
    tokens: &mut Cursor<'_, 'a>,
) -> Result<Box<Item<'a>>, Fault>
    requires { room ≤ 1000 }
    ensures { Gives heap_item_of (spec.defined_of room head.entry.start (words_of head.entry)
        (declarator_of declarator.entry) (left_of tokens.old)) result (left_of tokens.new) }
{
    if room < 2 || !is_function(&declarator) || !Allowed::Function.allows(&head.specifiers) {
        return Err(Fault::Syntax);
    }
    let block = compound(alloc, tokens, room - 1)?;
    on_heap(alloc, definition(head, declarator, block))
}

/// A declaration without a declarator, whose specifiers are read.
#[inline(never)]
fn undeclared_item<'a>(
    alloc: Global,
    head: Head<'a>,
    tokens: &mut Cursor<'_, 'a>,
) -> Result<Box<Item<'a>>, Fault>
    ensures { Gives heap_item_of (spec.undeclared_item_of head.entry.start (words_of head.entry)
        (left_of tokens.old)) result (left_of tokens.new) }
{
    let declaration = undeclared(alloc, head, tokens)?;
    on_heap(alloc, Item::Declared { declaration })
}

/// A declaration whose first declarator is read.
#[inline(never)]
fn declared_item<'a>(
    alloc: Global,
    room: u32,
    head: Head<'a>,
    declarator: Declarator<'a>,
    tokens: &mut Cursor<'_, 'a>,
) -> Result<Box<Item<'a>>, Fault>
    requires { room ≤ 1000 }
    ensures { Gives heap_item_of
        (spec.declaration_item_of room head.entry.start (words_of head.entry)
        (declarator_of declarator.entry) (left_of tokens.old)) result (left_of tokens.new) }
{
    let typedef = is_typedef(&head.specifiers);
    let declaration = declared(alloc, typedef, room, head, declarator, tokens)?;
    on_heap(alloc, Item::Declared { declaration })
}

/// An external declaration with a declarator, whose specifiers are read.
#[inline(never)]
fn after_head<'a>(
    alloc: Global,
    room: u32,
    head: Head<'a>,
    tokens: &mut Cursor<'_, 'a>,
) -> Result<Box<Item<'a>>, Fault>
    requires { room ≤ 1000 }
    ensures { Gives heap_item_of (head_item_of room head.entry.start (words_of head.entry)
        (left_of tokens.old)) result (left_of tokens.new) }
{
    let declarator = declarator(alloc, tokens, room)?;
    if tokens.sees(b"{") {
        defined(alloc, room, head, declarator, tokens)
    } else {
        declared_item(alloc, room, head, declarator, tokens)
    }
}

/// Reads an external declaration of fewer than `room` levels.
#[inline(never)]
#[tactic(auto, unfolding(laws_grammar::specs::Items::item_of))]
fn item<'a>(alloc: Global, room: u32, tokens: &mut Cursor<'_, 'a>) -> Result<Box<Item<'a>>, Fault>
    requires { room ≤ 1000 }
    ensures { Gives heap_item_of (spec.item_of room (left_of tokens.old)) result
        (left_of tokens.new) }
{
    let start = tokens.first()?;
    let specifiers = specifiers(alloc, tokens, room, Allowed::Item)?;
    let head = Head { start, specifiers };
    if tokens.sees(b";") {
        undeclared_item(alloc, head, tokens)
    } else {
        after_head(alloc, room, head, tokens)
    }
}

#[tactic(auto, using(parse_expressions::proofs::Lists::map_push))]
fn push<'a>(all: &mut Vec<Item<'a>>, one: Box<Item<'a>>) -> Result<(), AllocError>
    ensures { IfOk result (λ _. items_of all.new.items ≡ items_of all.old.items
        ++ heap_item_of one.entry ∷ []) }
{
    push_boxed(all, one)
}

/// Reads external declarations of fewer than `room` levels, up to the end.
#[tactic(auto, using(parse_expressions::proofs::Lists::until_steps), unfolding(laws_grammar::specs::Items::unit_of))]
pub fn items<'a>(
    alloc: Global,
    room: u32,
    tokens: &mut Cursor<'_, 'a>,
) -> Result<Vec<Item<'a>>, Fault>
    requires { room ≤ 1000 }
    ensures { Gives (λ all. items_of all.items) (spec.unit_of room (left_of tokens.old)) result
        (left_of tokens.new) }
{
    let mut all = Vec::new(alloc);
    for _turn in 0..tokens.turns() {
        if tokens.is_at_end() {
            return Ok(all);
        }
        let one = item(alloc, room, tokens)?;
        push(&mut all, one)?;
    }
    Err(Fault::Syntax)
}
