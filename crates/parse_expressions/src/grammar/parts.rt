//! What reads the parts of a tree. Each rule stands over it by one bound, so that what is known of
//! the two functions behind it is said once.
ghost use Rattle.std.specs.Prelude.{◌≤◌, ◌+◌, ℕ, IfOk};
ghost use Rattle.mc_grammar.specs.Counts.{for_type};
ghost use Rattle.laws_grammar.specs.Rooms.{reading};
ghost use Rattle.parse_cursor.specs.Cursors.{left_of};
ghost use Rattle.parse_cursor.specs.Rules.{nonterminal_of};
ghost use Rattle.parse_expressions.specs.Given.{GivesSpecifiers, GivesTree, Nests, NestsTypes};

use crate::allowed::Allowed;
use crate::read::{Read, ReadSpecifiers};
use parse_cursor::cursor::Cursor;
use parse_cursor::fault::Fault;
use parse_cursor::rule::Rule;
use std::alloc::Global;

/// Reads parts of fewer levels than some.
pub trait PartReader<'a> {
    // whether it may be asked for parts of fewer levels than this
    ghost nests: { Self → ℕ → Type 0 };

    /// Reads an expression of fewer than `room` levels.
    fn expression(
        &self,
        alloc: Global,
        tokens: &mut Cursor<'_, 'a>,
        room: u32,
        rule: Rule,
    ) -> Result<Read<'a>, Fault>
        requires { nests self.now room }
        ensures tree { GivesTree
            ((reading room).expression (nonterminal_of rule) (left_of tokens.old)) result
            (left_of tokens.new) }
        ensures height { IfOk result (λ r. r.height + 1 ≤ room) };

    /// Reads the specifiers of a type, of fewer than `room` levels.
    fn types(
        &self,
        alloc: Global,
        tokens: &mut Cursor<'_, 'a>,
        room: u32,
    ) -> Result<ReadSpecifiers<'a>, Fault>
        requires { nests self.now room }
        ensures specifiers { GivesSpecifiers
            ((reading room).specifiers for_type (left_of tokens.old)) result
            (left_of tokens.new) }
        ensures height { IfOk result (λ r. r.height + 1 ≤ room) };
}

/// The two functions that read parts. They are copied for each call, so that no more is known of
/// them than of one call: of an `Fn` all is proved for three kinds of calls.
#[derive(Drop)]
pub struct Readers<F, G> {
    /// Reads an expression.
    pub inner: F,
    /// Reads specifiers.
    pub typed: G,
}

impl<
    'a,
    F: FnOnce(Global, &mut Cursor<'_, 'a>, u32, Rule) -> Result<Read<'a>, Fault> + Copy,
    G: FnOnce(Global, &mut Cursor<'_, 'a>, u32, Allowed) -> Result<ReadSpecifiers<'a>, Fault>
        + Copy,
> PartReader<'a> for Readers<F, G> {
    ghost nests = { λ readers room. Nests room (F.pre readers.inner) (F.post readers.inner)
        × NestsTypes room (G.pre readers.typed) (G.post readers.typed) };

    #[inline(always)]
    fn expression(
        &self,
        alloc: Global,
        tokens: &mut Cursor<'_, 'a>,
        room: u32,
        rule: Rule,
    ) -> Result<Read<'a>, Fault> {
        (self.inner)(alloc, tokens, room, rule)
    }

    #[inline(always)]
    fn types(
        &self,
        alloc: Global,
        tokens: &mut Cursor<'_, 'a>,
        room: u32,
    ) -> Result<ReadSpecifiers<'a>, Fault> {
        (self.typed)(alloc, tokens, room, Allowed::Type)
    }
}
