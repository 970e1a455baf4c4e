//! The pieces of a text.
ghost use Rattle.std.specs.Prelude.{◌≡◌, ◌<◌, ◌^◌, length, IfOk, []};
ghost use Rattle.adapt_tokens.specs.Cuts.{Cuts};
ghost use Rattle.adapt_tokens.specs.Seen.{parts_of};

use crate::byte::still_first;
use crate::next::next_at;
use crate::piece::Piece;
use std::alloc::{AllocError, Global};

/// Cuts a text into its pieces, whatever bytes it has. What is no token of C is a piece too, of a
/// kind that says so. Each piece's bytes are lent from the text.
pub fn cut<'a>(alloc: Global, source: &'a [u8]) -> Result<Vec<Piece<'a>>, AllocError>
    requires { length source.now < 2 ^ 31 }
    ensures { IfOk result (λ v. Cuts [] source.now (parts_of v.items)) }
{
    let mut pieces = Vec::new(alloc);
    let mut rest = source;
    let mut at = 0;
    let mut is_first = true;
    while let [_, ..] = rest {
        let next = next_at(is_first, rest);
        let (text, after) = rest.split_at(next.length);
        pieces.push(Piece {
            kind: next.kind,
            text,
            start: at as u32,
        })?;
        is_first = still_first(is_first, text);
        rest = after;
        at += next.length;
    }
    Ok(pieces)
}
