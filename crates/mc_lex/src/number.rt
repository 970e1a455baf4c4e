//! Integer constants, with their base, digits and suffix.
ghost use Rattle.std.specs.Prelude.{◌≡◌, ◌+◌, ◌≤◌, length};
ghost use Rattle.mc_lex.specs.Numbers as numbers;
ghost use Rattle.mc_lex.specs.steps.Scanner as spec;

use crate::base::{Base, has_hexadecimal_prefix};
use crate::byte::{is_digit, is_word_byte};
use crate::digits::value_of;
use crate::fault_kind::FaultKind;
use crate::suffix::Suffix;
use crate::token::TokenKind;

/// Whether a byte goes on with a number after another.
fn continues(last: u8, byte: u8) -> bool
    ensures { result ≡ numbers.continues last byte }
{
    is_word_byte(byte)
        || byte == b'.'
        || ((last == b'e' || last == b'E' || last == b'p' || last == b'P')
            && (byte == b'+' || byte == b'-'))
}

/// How many bytes go on with a number after its first byte.
fn continued(first: u8, bytes: &[u8]) -> usize
    ensures value { result ≡ spec.continued first bytes.now }
    ensures within { result ≤ length bytes.now }
{
    let mut last = first;
    let mut left = bytes;
    let mut n = 0;
    while let [byte, later @ ..] = left {
        if !continues(last, *byte) {
            return n;
        }
        n += 1;
        last = *byte;
        left = later;
    }
    n
}

fn starts_number(first: u8, rest: &[u8]) -> bool
    ensures { result ≡ numbers.starts_number first rest.now }
{
    match rest {
        [] => is_digit(first),
        [second, ..] => is_digit(first) || (first == b'.' && is_digit(*second)),
    }
}

/// The length of the number at the start, or 0.
pub fn number_len(bytes: &[u8]) -> usize
    ensures value { result ≡ spec.number_len bytes.now }
    ensures within { result ≤ length bytes.now }
{
    match bytes {
        [] => 0,
        [first, rest @ ..] => {
            if starts_number(*first, rest) {
                1 + continued(*first, rest)
            } else {
                0
            }
        }
    }
}

fn looks_floating(text: &[u8]) -> bool
    ensures { result ≡ numbers.looks_floating text.now }
{
    text.contains(&b'.')
        || (if has_hexadecimal_prefix(text) {
            text.contains(&b'p') || text.contains(&b'P')
        } else {
            text.contains(&b'e') || text.contains(&b'E')
        })
}

/// Why a number that is not an integer constant is not a token.
fn fault_of_number(text: &[u8]) -> FaultKind
    ensures { result ≡ numbers.fault_of_number text.now }
{
    if looks_floating(text) {
        FaultKind::OutsideWord
    } else {
        FaultKind::Token
    }
}

/// The greatest value that a type of the constant's list holds (C17 6.4.4.1).
fn limit(suffix: Suffix, base: Base) -> u64
    ensures { result ≡ spec.limit suffix base }
{
    if base.is_decimal() && !suffix.has_u() {
        i64::MAX as u64
    } else {
        u64::MAX
    }
}

/// The constant of these digits and this suffix.
fn constant(base: Base, digits: &[u8], suffix: Suffix) -> Result<TokenKind, FaultKind>
    ensures { result ≡ numbers.constant base (digits_value (spec.radix base) digits.now) suffix }
{
    match value_of(digits, base.radix()) {
        Some(value) if value <= limit(suffix, base) => Ok(TokenKind::Constant {
            value,
            decimal: base.is_decimal(),
            unsigned: suffix.has_u(),
            longs: suffix.longs(),
        }),
        _ => Err(FaultKind::Limit),
    }
}

/// What a number of these digits and this suffix is.
fn integer_kind(
    text: &[u8],
    base: Base,
    digits: &[u8],
    suffix: Option<Suffix>,
) -> Result<TokenKind, FaultKind>
    ensures { result ≡ spec.integer_kind text.now base digits.now suffix }
{
    match digits {
        [] => Err(fault_of_number(text)),
        [_, ..] => match suffix {
            Some(suffix) => constant(base, digits, suffix),
            None => Err(fault_of_number(text)),
        },
    }
}

/// What a number is.
#[tactic(auto, unfolding(crate::specs::steps::Scanner::number_kind))]
pub fn number_kind(text: &[u8]) -> Result<TokenKind, FaultKind>
    ensures { result ≡ spec.number_kind text.now }
{
    let base = Base::of(text);
    let body = base.body(text);
    let (digits, rest) = body.split_at(base.digits_len(body));
    integer_kind(text, base, digits, Suffix::of(rest))
}

ghost use Rattle.std.specs.Str.Parse.{digits_value};
