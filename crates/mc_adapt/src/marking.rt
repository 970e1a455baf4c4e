//! The marks of all pieces.
ghost use Rattle.std.specs.Prelude.{◌≡◌, IfOk, OnOk};
ghost use Rattle.adapt_tokens.specs.Seen.{part_of, parts_of};
ghost use Rattle.mc_adapt.specs.States as states;
ghost use Rattle.mc_adapt.specs.Marks as marks;
ghost use Rattle.mc_adapt.specs.Outside as outside;
ghost use Rattle.mc_adapt.specs.Seen.{marking_of, markings_of};

use crate::mark::Mark;
use crate::rules::mark_of;
use crate::sort::Sort;
use crate::sorting::sort_of;
use crate::state::State;
use crate::steps::{start, state_after};
use adapt_tokens::Piece;
use std::alloc::{AllocError, Global};

/// A piece, what it is, and what becomes of it.
#[derive(Clone, Copy, Debug)]
pub(crate) struct Marked<'a> {
    pub(crate) piece: Piece<'a>,
    pub(crate) sort: Sort,
    pub(crate) mark: Mark,
}

fn mark_piece<'a>(state: State, piece: Piece<'a>) -> Marked<'a>
    ensures { marking_of result ≡ marks.marked state (part_of piece.entry) }
{
    let sort = sort_of(piece.kind, piece.text);
    let mark = mark_of(state, sort, piece.text);
    Marked { piece, sort, mark }
}

/// What becomes of each piece.
pub(crate) fn markings<'a>(
    alloc: Global,
    pieces: &[Piece<'a>],
) -> Result<Vec<Marked<'a>>, AllocError>
    ensures { IfOk result (λ v. markings_of v.items
        ≡ marks.markings states.start (parts_of pieces.now)) }
{
    let mut found = Vec::new(alloc);
    let mut state = start();
    let mut left = pieces;
    while let [piece, later @ ..] = left {
        let next = mark_piece(state, *piece);
        found.push(next)?;
        state = state_after(state, next.sort);
        left = later;
    }
    Ok(found)
}

/// Where the end of the text stands.
pub(crate) fn state_at_end(marked: &[Marked<'_>]) -> State
    ensures { result ≡ outside.state_at_end states.start (markings_of marked.now) }
{
    let mut state = start();
    let mut left = marked;
    while let [next, later @ ..] = left {
        state = state_after(state, next.sort);
        left = later;
    }
    state
}
