//! Digits, and the numbers that they write.
ghost use Rattle.std.specs.Prelude.{◌≡◌, ◌≤◌, ◌+◌, ◌*◌, length};
ghost use Rattle.std.specs.Char.{digit_value};
ghost use Rattle.std.specs.Str.Parse.{digits_value};
ghost use Rattle.mc_lex.specs.declared.base.Base.TheVariants as base;
ghost use Rattle.mc_lex.specs.steps.Scanner as spec;

use crate::byte::{is_digit, is_hexadecimal, is_octal};

/// How many octal digits stand at the start.
pub fn octal_len(bytes: &[u8]) -> usize
    ensures value { result ≡ spec.digits_len base.Octal bytes.now }
    ensures within { result ≤ length bytes.now }
{
    bytes.iter().take_while(|b| is_octal(**b)).count()
}

/// How many hexadecimal digits stand at the start.
pub fn hexadecimal_len(bytes: &[u8]) -> usize
    ensures value { result ≡ spec.digits_len base.Hexadecimal bytes.now }
    ensures within { result ≤ length bytes.now }
{
    bytes.iter().take_while(|b| is_hexadecimal(**b)).count()
}

/// How many decimal digits stand at the start.
pub fn decimal_len(bytes: &[u8]) -> usize
    ensures value { result ≡ spec.digits_len base.Decimal bytes.now }
    ensures within { result ≤ length bytes.now }
{
    bytes.iter().take_while(|b| is_digit(**b)).count()
}

/// The value of a digit or a letter as a digit.
fn digit_value(b: u8) -> u8
    ensures { result ≡ digit_value b }
{
    match b {
        b'0'..=b'9' => b - b'0',
        b'A'..=b'Z' => b - b'A' + 10,
        b'a'..=b'z' => b - b'a' + 10,
        _ => 36,
    }
}

/// The number that digits write, where 64 bits hold it.
#[tactic(auto, using(crate::proofs::Turns::value_steps))]
pub fn value_of(digits: &[u8], radix: u64) -> Option<u64>
    requires { 1 ≤ radix }
    ensures { result ≡ spec.if_fits (digits_value radix digits.now) }
{
    let mut value = 0;
    let mut left = digits;
    while let [digit, later @ ..] = left {
        match with_digit(value, radix, *digit) {
            Some(more) => value = more,
            None => return None,
        }
        left = later;
    }
    Some(value)
}

/// A number with one more digit, where 64 bits hold it.
fn with_digit(value: u64, radix: u64, digit: u8) -> Option<u64>
    ensures { result ≡ spec.if_fits (value * radix + digit_value digit) }
{
    value
        .checked_mul(radix)?
        .checked_add(u64::from(digit_value(digit)))
}
