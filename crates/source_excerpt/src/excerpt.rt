//! Parts of a source, and what is shown of them.
ghost use Rattle.std.specs.Prelude.{◌≡◌, drop, take, IfOk};
ghost use Rattle.source_excerpt.specs.Blanks.{on_one_line};
ghost use Rattle.source_excerpt.specs.Comments.{without_comments};
ghost use Rattle.source_excerpt.specs.Excerpts.{bytes_at, most_shown, one_line};

use crate::blanks::on_one_line;
use crate::comments::without_comments;
use mc_span::Span;
use std::alloc::{AllocError, Global};

/// How many bytes are shown at most.
const MOST_SHOWN: usize = 60;

/// What stands at a place, cut where it passes the source's end. Takes no memory.
pub fn bytes_at(source: &[u8], span: Span) -> &[u8]
    ensures { result.now ≡ bytes_at source.now span }
{
    from(to(source, span.end as usize), span.start as usize)
}

fn to(bytes: &[u8], end: usize) -> &[u8]
    ensures { result.now ≡ take end bytes.now }
{
    &bytes[..end.min(bytes.len())]
}

fn from(bytes: &[u8], start: usize) -> &[u8]
    ensures { result.now ≡ drop start bytes.now }
{
    &bytes[start.min(bytes.len())..]
}

/// The bytes without comments, on one line.
fn plain_line(alloc: Global, bytes: &[u8]) -> Result<Vec<u8>, AllocError>
    ensures { IfOk result (λ text. text.items ≡ on_one_line (without_comments bytes.now)) }
{
    let code = without_comments(alloc, bytes)?;
    on_one_line(alloc, &code)
}

/// The bytes on one line: each comment is a blank, white space in a row is one blank, with none at
/// the front and at the end, and at most 60 bytes are left.
pub fn one_line(alloc: Global, bytes: &[u8]) -> Result<Vec<u8>, AllocError>
    ensures { IfOk result (λ text. text.items ≡ one_line bytes.now) }
{
    let whole = plain_line(alloc, bytes)?;
    on_one_line(alloc, to(&whole, MOST_SHOWN))
}
