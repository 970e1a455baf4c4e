//! What stands first in a text.
ghost use Rattle.std.specs.Prelude.{◌≡◌, ◌≤◌, ◌<◌, ◌^◌, length};
ghost use Rattle.adapt_tokens.specs.steps.Next as spec;

use crate::byte::{is_letter, is_quote, is_white_space, word_len};
use crate::directive::directive_next;
use crate::kind::Kind;
use crate::literal::literal_next;
use crate::number::{continued, starts_number};
use crate::symbol::symbol_next;

/// The piece that stands first: its kind, and how many bytes it has.
#[derive(Clone, Copy, Debug, PartialEq, Eq)]
pub(crate) struct Next {
    pub(crate) kind: Kind,
    pub(crate) length: usize,
}

fn word_next(rest: &[u8]) -> Next
    requires { length rest.now < 2 ^ 31 }
    ensures { result ≡ spec.word_next rest.now }
{
    Next {
        kind: Kind::Word,
        length: 1 + word_len(rest),
    }
}

fn number_next(first: u8, rest: &[u8]) -> Next
    requires { length rest.now < 2 ^ 31 }
    ensures { result ≡ spec.number_next first rest.now }
{
    Next {
        kind: Kind::Number,
        length: 1 + continued(first, rest),
    }
}

fn head_next(is_first: bool, first: u8, rest: &[u8]) -> Next
    requires { length rest.now < 2 ^ 31 }
    ensures { result ≡ spec.head_next is_first first rest.now }
{
    if is_white_space(first) {
        Next {
            kind: Kind::White,
            length: 1,
        }
    } else if is_letter(first) {
        word_next(rest)
    } else if starts_number(first, rest) {
        number_next(first, rest)
    } else if is_quote(first) {
        literal_next(first, rest)
    } else if first == b'#' && is_first {
        directive_next(rest)
    } else {
        symbol_next(first, rest)
    }
}

/// What stands first, where `is_first` says that only white space stands before it on its line.
#[tactic(auto, unfolding(crate::specs::steps::Next::next_at))]
pub(crate) fn next_at(is_first: bool, bytes: &[u8]) -> Next
    requires { length bytes.now < 2 ^ 31 }
    ensures { result ≡ spec.next_at is_first bytes.now }
{
    match bytes {
        [] => Next {
            kind: Kind::Byte,
            length: 0,
        },
        [first, rest @ ..] => head_next(is_first, *first, rest),
    }
}
