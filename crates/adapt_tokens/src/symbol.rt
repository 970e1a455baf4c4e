//! Punctuators, comments, and bytes that begin nothing.
ghost use Rattle.std.specs.Prelude.{◌≡◌, ◌≤◌, ◌<◌, ◌^◌, length};
ghost use Rattle.adapt_tokens.specs.Kinds as kinds;
ghost use Rattle.adapt_tokens.specs.steps.Next as spec;

use crate::byte::line_len;
use crate::comment::comment_next;
use crate::kind::Kind;
use crate::next::Next;

/// `+ - * / % & | ^ < > = !` stand before `=`.
fn stands_before_equals(b: u8) -> bool
    ensures { result ≡ kinds.stands_before_equals b }
{
    match b {
        b'+' | b'-' | b'*' | b'/' | b'%' | b'&' | b'|' | b'^' | b'<' | b'>' | b'=' | b'!' => true,
        _ => false,
    }
}

/// `+ - & | < >` stand before themselves.
fn is_doubled(b: u8) -> bool
    ensures { result ≡ kinds.is_doubled b }
{
    match b {
        b'+' | b'-' | b'&' | b'|' | b'<' | b'>' => true,
        _ => false,
    }
}

/// `->` and the digraphs.
fn is_other_pair(a: u8, b: u8) -> bool
    ensures { result ≡ kinds.is_other_pair a b }
{
    (a == b'-' && b == b'>')
        || (a == b'<' && b == b':')
        || (a == b':' && b == b'>')
        || (a == b'<' && b == b'%')
        || (a == b'%' && b == b'>')
        || (a == b'%' && b == b':')
}

/// Whether two bytes are a punctuator (C17 6.4.6).
fn is_pair(a: u8, b: u8) -> bool
    ensures { result ≡ kinds.is_pair a b }
{
    (stands_before_equals(a) && b == b'=') || (is_doubled(a) && b == a) || is_other_pair(a, b)
}

/// Whether three bytes are a punctuator: `<<=`, `>>=` or `...`.
fn is_triple(a: u8, b: u8, c: u8) -> bool
    ensures { result ≡ kinds.is_triple a b c }
{
    ((a == b'<' || a == b'>') && b == a && c == b'=') || (a == b'.' && b == b'.' && c == b'.')
}

/// Whether a byte that begins nothing longer is a punctuator by itself.
fn is_lone(b: u8) -> bool
    ensures { result ≡ kinds.is_lone b }
{
    b == b'!'
        || (b >= b'%' && b <= b'/')
        || (b >= b':' && b <= b'?')
        || b == b'['
        || b == b']'
        || b == b'^'
        || (b >= b'{' && b <= b'~')
}

fn lone_next(b: u8) -> Next
    ensures { result ≡ spec.lone_next b }
{
    let kind = if is_lone(b) {
        Kind::Punctuator
    } else {
        Kind::Byte
    };
    Next { kind, length: 1 }
}

fn pair_next(a: u8, b: u8) -> Next
    ensures { result ≡ spec.pair_next a b }
{
    if is_pair(a, b) {
        Next {
            kind: Kind::Punctuator,
            length: 2,
        }
    } else {
        lone_next(a)
    }
}

/// The longest punctuator that begins with two bytes, or the first of them alone.
fn long_next(a: u8, b: u8, rest: &[u8]) -> Next
    ensures { result ≡ spec.long_next a b rest.now }
{
    match rest {
        [c, ..] if is_triple(a, b, *c) => Next {
            kind: Kind::Punctuator,
            length: 3,
        },
        _ => pair_next(a, b),
    }
}

/// What begins with a byte that begins no word, number, literal or line.
pub(crate) fn symbol_next(first: u8, bytes: &[u8]) -> Next
    requires { length bytes.now < 2 ^ 31 }
    ensures { result ≡ spec.symbol_next first bytes.now }
{
    match bytes {
        [] => lone_next(first),
        [second, rest @ ..] => {
            if first == b'/' && *second == b'*' {
                comment_next(rest)
            } else if first == b'/' && *second == b'/' {
                Next {
                    kind: Kind::Comment,
                    length: 2 + line_len(rest),
                }
            } else {
                long_next(first, *second, rest)
            }
        }
    }
}
