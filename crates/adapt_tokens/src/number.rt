//! Preprocessing numbers.
ghost use Rattle.std.specs.Prelude.{◌≡◌, ◌≤◌, length};
ghost use Rattle.mc_lex.specs.Numbers as numbers;
ghost use Rattle.mc_lex.specs.steps.Scanner as scanner;

use crate::byte::{is_digit, is_word_byte};

/// `e`, `E`, `p` or `P`.
fn is_exponent(b: u8) -> bool
    ensures { result ≡ numbers.is_exponent b }
{
    b == b'e' || b == b'E' || b == b'p' || b == b'P'
}

fn is_sign(b: u8) -> bool
    ensures { result ≡ numbers.is_sign b }
{
    b == b'+' || b == b'-'
}

/// Whether `b` goes on with a number after the byte `a`.
fn continues(a: u8, b: u8) -> bool
    ensures { result ≡ numbers.continues a b }
{
    is_word_byte(b) || b == b'.' || (is_exponent(a) && is_sign(b))
}

/// Whether a number starts with the byte before these bytes.
pub(crate) fn starts_number(first: u8, rest: &[u8]) -> bool
    ensures { result ≡ numbers.starts_number first rest.now }
{
    match rest {
        [] => is_digit(first),
        [second, ..] => is_digit(first) || (first == b'.' && is_digit(*second)),
    }
}

/// How many bytes go on with a number after the byte before them.
pub(crate) fn continued(first: u8, bytes: &[u8]) -> usize
    ensures value { result ≡ scanner.continued first bytes.now }
    ensures within { result ≤ length bytes.now }
{
    let mut last = first;
    let mut n = 0;
    let mut left = bytes;
    while let [byte, later @ ..] = left {
        if !continues(last, *byte) {
            return n;
        }
        n += 1;
        last = *byte;
        left = later;
    }
    n
}
