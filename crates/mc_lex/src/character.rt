//! How character constants are read (C17 6.4.4.4).
ghost use Rattle.std.specs.Prelude.{◌≡◌, ◌+◌, ◌≤◌, ◌<◌, ◌^◌, length, IfSome};
ghost use Rattle.mc_lex.specs.Characters as characters;
ghost use Rattle.mc_lex.specs.steps.Scanner as spec;

use crate::byte::{is_octal, starts_with_byte};
use crate::digits::{hexadecimal_len, octal_len, value_of};
use crate::fault_kind::FaultKind;
use crate::token::TokenKind;

/// A character constant at the start of some bytes: how long it is, and the byte that it means.
#[derive(Clone, Copy, Debug, PartialEq, Eq)]
pub struct Quoted {
    pub length: usize,
    pub byte: u8,
}

/// A printable byte other than `'` and `\`.
fn is_plain(b: u8) -> bool
    ensures { result ≡ characters.is_plain b }
{
    b >= b' ' && b <= b'~' && b != b'\'' && b != b'\\'
}

/// The byte of a simple escape.
fn simple_escape(c: u8) -> Option<u8>
    ensures { result ≡ characters.simple_escape c }
{
    match c {
        b'\'' => Some(b'\''),
        b'"' => Some(b'"'),
        b'?' => Some(b'?'),
        b'\\' => Some(b'\\'),
        b'a' => Some(7),
        b'b' => Some(8),
        b'f' => Some(12),
        b'n' => Some(10),
        b'r' => Some(13),
        b't' => Some(9),
        b'v' => Some(11),
        _ => None,
    }
}

/// The constant whose first `n` digits begin after `start` bytes.
fn by_digits(radix: u64, start: usize, most: usize, n: usize, digits: &[u8]) -> Option<Quoted>
    requires least { 1 ≤ radix }
    requires within { n ≤ length digits.now }
    requires short { length digits.now < 2 ^ 31 }
    requires near { start ≤ 3 }
    ensures { result ≡ spec.by_digits radix start most n digits.now }
{
    let (number, rest) = digits.split_at(n);
    match value_of(number, radix) {
        Some(value) if n >= 1 && n <= most && starts_with_byte(rest, b'\'') && value <= 255 => Some(
            Quoted {
                length: start + n + 1,
                byte: value as u8,
            },
        ),
        _ => None,
    }
}

fn by_simple(byte: Option<u8>, rest: &[u8]) -> Option<Quoted>
    ensures { result ≡ spec.by_simple byte rest.now }
{
    match byte {
        Some(byte) if starts_with_byte(rest, b'\'') => Some(Quoted { length: 4, byte }),
        _ => None,
    }
}

/// The constant whose escape goes on with these bytes after its `\`.
fn escape_at(bytes: &[u8]) -> Option<Quoted>
    requires { length bytes.now < 2 ^ 31 }
    ensures { result ≡ spec.escape_at bytes.now }
{
    match bytes {
        [] => None,
        [first, rest @ ..] => {
            if *first == b'x' {
                by_digits(16, 3, rest.len(), hexadecimal_len(rest), rest)
            } else if is_octal(*first) {
                by_digits(8, 2, 3, octal_len(bytes), bytes)
            } else {
                by_simple(simple_escape(*first), rest)
            }
        }
    }
}

fn plain_at(byte: u8, rest: &[u8]) -> Option<Quoted>
    ensures { result ≡ spec.plain_at byte rest.now }
{
    if is_plain(byte) && starts_with_byte(rest, b'\'') {
        Some(Quoted { length: 3, byte })
    } else {
        None
    }
}

/// The constant that goes on with these bytes after its `'`. It stays a call, since few tokens
/// are constants and each asks whether it is one.
#[inline(never)]
fn quoted_at(bytes: &[u8]) -> Option<Quoted>
    requires { length bytes.now < 2 ^ 31 }
    ensures { result ≡ spec.quoted_at bytes.now }
{
    match bytes {
        [] => None,
        [first, rest @ ..] => {
            if *first == b'\\' {
                escape_at(rest)
            } else {
                plain_at(*first, rest)
            }
        }
    }
}

/// The character constant at the start.
#[inline(always)]
#[tactic(auto, unfolding(crate::specs::steps::Scanner::character_at))]
fn character_at(bytes: &[u8]) -> Option<Quoted>
    requires { length bytes.now < 2 ^ 31 }
    ensures { result ≡ spec.character_at bytes.now }
{
    match bytes {
        [] => None,
        [first, rest @ ..] => {
            if *first == b'\'' {
                quoted_at(rest)
            } else {
                None
            }
        }
    }
}

/// The length of the character constant at the start, or 0.
pub fn character_len(bytes: &[u8]) -> usize
    requires { length bytes.now < 2 ^ 31 }
    ensures { result ≡ spec.character_len bytes.now }
{
    match character_at(bytes) {
        Some(quoted) => quoted.length,
        None => 0,
    }
}

/// The value of a byte as a signed `char`.
fn signed_char(byte: u8) -> i32
    ensures { result ≡ characters.signed_char byte }
{
    if byte <= 127 {
        i32::from(byte)
    } else {
        i32::from(byte) - 256
    }
}

/// What a character constant is.
pub fn character_kind(text: &[u8]) -> Result<TokenKind, FaultKind>
    requires { length text.now < 2 ^ 31 }
    ensures { result ≡ spec.byte_kind (spec.character_at text.now) }
{
    match character_at(text) {
        Some(quoted) => Ok(TokenKind::Character {
            value: signed_char(quoted.byte),
        }),
        None => Err(FaultKind::Token),
    }
}
