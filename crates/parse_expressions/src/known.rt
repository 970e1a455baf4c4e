//! What reads parts outside the recursion: the two functions themselves, so that no function is
//! handed on.
ghost use Rattle.std.specs.Prelude.{◌≤◌};

use crate::allowed::Allowed;
use crate::grammar::parts::PartReader;
use crate::knot::{expression, read_specifiers};
use crate::read::{Read, ReadSpecifiers};
use parse_cursor::cursor::Cursor;
use parse_cursor::fault::Fault;
use parse_cursor::rule::Rule;
use std::alloc::Global;

/// Reads parts by the functions of the recursion.
#[derive(Drop)]
pub struct Known;

impl<'a> PartReader<'a> for Known {
    ghost nests = { λ _ room. room ≤ 1000 };

    #[inline(always)]
    fn expression(
        &self,
        alloc: Global,
        tokens: &mut Cursor<'_, 'a>,
        room: u32,
        rule: Rule,
    ) -> Result<Read<'a>, Fault> {
        expression(alloc, tokens, room, rule)
    }

    #[inline(always)]
    fn types(
        &self,
        alloc: Global,
        tokens: &mut Cursor<'_, 'a>,
        room: u32,
    ) -> Result<ReadSpecifiers<'a>, Fault> {
        read_specifiers(alloc, tokens, room, Allowed::Type)
    }
}
