//! What reads parts of fewer than so many levels: each rule stands over these two functions.
ghost use Rattle.std.specs.Prelude.{◌≤◌, ◌+◌, IfOk};
ghost use Rattle.mc_tree.specs.Views as views;
ghost use Rattle.laws_grammar.specs.Specifiers as spec;
ghost use Rattle.laws_grammar.specs.Rooms.{reading};
ghost use Rattle.parse_expressions.specs.Counted.{test_of};
ghost use Rattle.parse_cursor.specs.Cursors.{Gives, left_of};
ghost use Rattle.parse_cursor.specs.Rules.{nonterminal_of};
ghost use Rattle.parse_expressions.specs.Given.{GivesSpecifiers, GivesTree};
ghost use Rattle.parse_expressions.specs.Parts.{specifiers_in};

use crate::allowed::Allowed;
use crate::grammar::Grammar;
use crate::grammar::parts::Readers;
use crate::known::Known;
use crate::read::{Read, ReadSpecifiers};
use mc_tree::{Declarator, Specifier};
use parse_cursor::cursor::Cursor;
use parse_cursor::fault::Fault;
use parse_cursor::rule::Rule;
use std::alloc::Global;

/// Reads an expression of fewer than `room` levels.
#[cycle(knot)]
#[tactic(auto, using(crate::proofs::Rooms::knot_steps))]
pub fn expression<'a>(
    alloc: Global,
    tokens: &mut Cursor<'_, 'a>,
    room: u32,
    rule: Rule,
) -> Result<Read<'a>, Fault>
    requires { room ≤ 1000 }
    ensures tree { GivesTree ((reading room).expression (nonterminal_of rule) (left_of tokens.old))
        result (left_of tokens.new) }
    ensures height { IfOk result (λ r. r.height + 1 ≤ room) }
{
    if room < 2 {
        return Err(Fault::Syntax);
    }
    let grammar = Grammar {
        alloc,
        room: room - 1,
        parts: Readers {
            inner: expression,
            typed: read_specifiers,
        },
    };
    grammar.by_rule(tokens, rule)
}

/// Reads specifiers of fewer than `room` levels that may stand together here, with their height.
#[cycle(knot)]
#[tactic(auto, using(crate::proofs::Rooms::knot_steps))]
pub fn read_specifiers<'a>(
    alloc: Global,
    tokens: &mut Cursor<'_, 'a>,
    room: u32,
    allowed: Allowed,
) -> Result<ReadSpecifiers<'a>, Fault>
    requires { room ≤ 1000 }
    ensures specifiers { GivesSpecifiers
        ((reading room).specifiers (test_of allowed) (left_of tokens.old)) result
        (left_of tokens.new) }
    ensures height { IfOk result (λ r. r.height + 1 ≤ room) }
{
    if room == 0 {
        return Err(Fault::Syntax);
    }
    let grammar = Grammar {
        alloc,
        room: room - 1,
        parts: Readers {
            inner: expression,
            typed: read_specifiers,
        },
    };
    grammar.specifiers(tokens, allowed)
}

/// Reads specifiers of fewer than `room` levels that may stand together here.
pub fn specifiers<'a>(
    alloc: Global,
    tokens: &mut Cursor<'_, 'a>,
    room: u32,
    allowed: Allowed,
) -> Result<Vec<Specifier<'a>>, Fault>
    requires { room ≤ 1000 }
    ensures { Gives specifiers_in ((reading room).specifiers (test_of allowed) (left_of tokens.old))
        result (left_of tokens.new) }
{
    let ReadSpecifiers { all, .. } = read_specifiers(alloc, tokens, room, allowed)?;
    Ok(all)
}

/// Reads a declarator of fewer than `room` levels.
pub fn declarator<'a>(
    alloc: Global,
    tokens: &mut Cursor<'_, 'a>,
    room: u32,
) -> Result<Declarator<'a>, Fault>
    requires { room ≤ 1000 }
    ensures { Gives views.declarator_of (spec.declarator_of (reading room) (left_of tokens.old))
        result (left_of tokens.new) }
{
    let grammar = Grammar {
        alloc,
        room,
        parts: Known,
    };
    let mut tallest = 0;
    let one = grammar.declarator(tokens, &mut tallest)?;
    Ok(Box::into_inner(one))
}
