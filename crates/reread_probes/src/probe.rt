//! Probes among the pieces of a text.
ghost use Rattle.std.specs.Prelude.{◌≡◌, ◌++◌, IfOk};
ghost use Rattle.reread_pieces.specs.steps.Views.{mark_of, marks_of};
ghost use Rattle.reread_probes.specs.Probes as spec;

use reread_pieces::{Piece, Stand, What, end_of, stand_of};
use std::alloc::{AllocError, Global};

/// A probe of a text: its row of the table, the byte at which its word starts, and what stands
/// round it: where the last token of the source before it ends, and where the next one starts. Of
/// a `return` with a value, whose probes leave tokens, the next one is that token.
#[derive(Clone, Copy, Debug, PartialEq, Eq)]
pub struct Probe {
    pub what: What,
    pub word: u32,
    pub last: u32,
    pub next: u32,
}

/// Whether a piece is a row of the table.
fn is_probe(what: What) -> bool
    ensures { result ≡ spec.is_probe what }
{
    !matches!(
        what,
        What::Source
            | What::Opening { .. }
            | What::Closing
            | What::StatementEnd
            | What::ReturnEnd
            | What::OperandEnd
    )
}

/// Whether a piece leaves a token that has a place of its own.
fn has_place(what: What) -> bool
    ensures { result ≡ spec.has_place what }
{
    matches!(stand_of(what), Stand::Own)
}

/// Where the next token with a place of its own starts; 0 where there is none.
fn next_start(pieces: &[Piece<'_>]) -> u32
    ensures { result ≡ spec.next_start (marks_of pieces.now) }
{
    let mut left = pieces;
    while let [piece, later @ ..] = left {
        if has_place(piece.what) {
            return piece.token.start;
        }
        left = later;
    }
    0
}

/// Adds the first of these pieces where it is a probe.
fn note(
    found: &mut Vec<Probe>,
    piece: &Piece<'_>,
    pieces: &[Piece<'_>],
    last: u32,
) -> Result<(), AllocError>
    ensures { IfOk result (λ _. found.new.items ≡ found.old.items
        ++ spec.front_probe last (mark_of piece.now) (marks_of pieces.now)) }
{
    if is_probe(piece.what) {
        let next = if has_place(piece.what) {
            piece.token.start
        } else {
            next_start(pieces)
        };
        found.push(Probe {
            what: piece.what,
            word: piece.word,
            last,
            next,
        })?;
    }
    Ok(())
}

/// The probes among the pieces of a text, in order.
pub(crate) fn probes(alloc: Global, pieces: &[Piece<'_>]) -> Result<Vec<Probe>, AllocError>
    ensures { IfOk result (λ v. v.items ≡ spec.probes (marks_of pieces.now)) }
{
    let mut found = Vec::new(alloc);
    let mut last = 0u32;
    let mut left = pieces;
    while let [piece, later @ ..] = left {
        note(&mut found, piece, later, last)?;
        last = end_of(piece, last);
        left = later;
    }
    Ok(found)
}
