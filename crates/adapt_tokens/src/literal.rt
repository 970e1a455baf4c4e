//! Character constants and strings.
ghost use Rattle.std.specs.Prelude.{◌≡◌, ◌≤◌, ◌<◌, ◌^◌, length, false};
ghost use Rattle.adapt_tokens.specs.Literals as literals;
ghost use Rattle.adapt_tokens.specs.Kinds as kinds;
ghost use Rattle.adapt_tokens.specs.steps.Next as spec;

use crate::byte::is_line_end;
use crate::kind::Kind;
use crate::next::Next;

/// How a literal goes on after its opening quote.
#[derive(Clone, Copy)]
struct Literal {
    length: usize,
    closed: bool,
}

fn literal_at(quote: u8, bytes: &[u8]) -> Literal
    ensures size { result.length ≡ literals.literal_len quote false bytes.now }
    ensures closed { result.closed ≡ literals.literal_closes quote false bytes.now }
    ensures within { result.length ≤ length bytes.now }
{
    let mut left = bytes;
    let mut escaped = false;
    let mut length = 0;
    while let [byte, later @ ..] = left {
        if is_line_end(*byte) {
            return Literal {
                length,
                closed: false,
            };
        }
        length += 1;
        if !escaped && *byte == quote {
            return Literal {
                length,
                closed: true,
            };
        }
        escaped = !escaped && *byte == b'\\';
        left = later;
    }
    Literal {
        length,
        closed: false,
    }
}

fn closed_kind(quote: u8) -> Kind
    ensures { result ≡ kinds.closed_kind quote }
{
    if quote == b'\'' {
        Kind::Character
    } else {
        Kind::Text
    }
}

/// The literal that goes on with these bytes after its opening quote.
pub(crate) fn literal_next(quote: u8, bytes: &[u8]) -> Next
    requires { length bytes.now < 2 ^ 31 }
    ensures { result ≡ spec.literal_next quote bytes.now }
{
    let literal = literal_at(quote, bytes);
    let kind = if literal.closed {
        closed_kind(quote)
    } else {
        Kind::OpenText
    };
    Next {
        kind,
        length: 1 + literal.length,
    }
}
