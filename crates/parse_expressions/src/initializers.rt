//! Initializers (C17 6.7.9).
ghost use Rattle.std.specs.Prelude.{◌≡◌, ◌≤◌, ◌<◌, ◌∷◌, ◌++◌, [], IfOk, map};
ghost use Rattle.mc_tree.specs.Tree as tree;
ghost use Rattle.mc_tree.specs.Units.{initializer_of, initializers_from};
ghost use Rattle.laws_grammar.specs.Declarations as spec;
ghost use Rattle.laws_grammar.specs.Lists.{braced_list, listed};
ghost use Rattle.laws_grammar.specs.Rooms.{reading};
ghost use Rattle.parse_cursor.specs.Cursors.{Gives, left_of};

use crate::accept::accept;
use crate::knot::expression;
use crate::read::Read;
use mc_span::Span;
use mc_tree::Initializer;
use parse_cursor::cursor::{Cursor, place};
use parse_cursor::fault::Fault;
use parse_cursor::rule::Rule;
use parse_cursor::{to, values};
use std::alloc::{AllocError, Global};

fn single<'a>(
    alloc: Global,
    tokens: &mut Cursor<'_, 'a>,
    room: u32,
) -> Result<Initializer<'a>, Fault>
    requires { room ≤ 1000 }
    ensures { Gives initializer_of (spec.single_of (reading room) (left_of tokens.old)) result
        (left_of tokens.new) }
{
    let Read { tree: value, .. } = expression(alloc, tokens, room, Rule::Assign)?;
    Ok(Initializer::Single { value })
}

fn braced<'a>(items: Vec<Initializer<'a>>, span: Span) -> Initializer<'a>
    ensures { initializer_of result
        ≡ tree.Braced (initializers_from (map initializer_of items.entry.items)) span }
{
    Initializer::Braced { items, span }
}

/// Reads an initializer of fewer than `room` levels.
#[cycle(initializers)]
#[tactic(auto, using(crate::proofs::Levels::initializer_steps))]
pub fn initializer<'a>(
    alloc: Global,
    tokens: &mut Cursor<'_, 'a>,
    room: u32,
) -> Result<Initializer<'a>, Fault>
    requires { room ≤ 1000 }
    ensures { Gives initializer_of (spec.initializer_of room (left_of tokens.old)) result
        (left_of tokens.new) }
{
    if room == 0 {
        return Err(Fault::Syntax);
    }
    let Some(first) = accept(tokens, b"{") else {
        return single(alloc, tokens, room - 1);
    };
    let items = initializers(alloc, tokens, room - 1)?;
    let last = tokens.expect(b"}")?;
    Ok(braced(items, to(place(first), place(last))))
}

/// Reads the initializers between braces, each of fewer than `room` levels.
#[cycle(initializers)]
#[tactic(auto, using(crate::proofs::Lists::braced_steps))]
fn initializers<'a>(
    alloc: Global,
    tokens: &mut Cursor<'_, 'a>,
    room: u32,
) -> Result<Vec<Initializer<'a>>, Fault>
    requires { room < 1000 }
    ensures { Gives (λ all. map initializer_of all.items)
        (listed (λ turns. braced_list turns (spec.initializer_of room) []) (left_of tokens.old))
        result (left_of tokens.new) }
{
    let mut all = Vec::new(alloc);
    for _turn in 0..tokens.turns() {
        let one = initializer(alloc, tokens, room)?;
        push(&mut all, one)?;
        let Some(_) = accept(tokens, b",") else {
            return Ok(all);
        };
        if tokens.sees(b"}") {
            return Ok(all);
        }
    }
    Err(Fault::Syntax)
}

#[tactic(auto, using(crate::proofs::Lists::map_push))]
fn push<'a>(all: &mut Vec<Initializer<'a>>, one: Initializer<'a>) -> Result<(), AllocError>
    ensures { IfOk result (λ _. map initializer_of all.new.items ≡ map initializer_of all.old.items
        ++ initializer_of one.entry ∷ []) }
{
    values::push(all, one)
}
