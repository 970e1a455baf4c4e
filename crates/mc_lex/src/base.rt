//! Bases of integer constants.
ghost use Rattle.std.specs.Prelude.{◌≡◌, ◌≤◌, length};
ghost use Rattle.mc_lex.specs.Numbers as numbers;
ghost use Rattle.mc_lex.specs.steps.Scanner as spec;

use crate::byte::starts_with_byte;
use crate::digits::{decimal_len, hexadecimal_len, octal_len};

/// The base in which an integer constant is written (C17 6.4.4.1). A lone `0` is octal.
#[derive(Clone, Copy, Debug, PartialEq, Eq)]
pub enum Base {
    Decimal,
    Octal,
    Hexadecimal,
}

impl Base {
    /// The base of a number, by how it begins.
    pub fn of(text: &[u8]) -> Base
        ensures { result ≡ spec.base_of text.now }
    {
        if has_hexadecimal_prefix(text) {
            Base::Hexadecimal
        } else if starts_with_byte(text, b'0') {
            Base::Octal
        } else {
            Base::Decimal
        }
    }

    pub fn radix(self) -> u64
        ensures { result ≡ spec.radix self }
    {
        match self {
            Base::Decimal => 10,
            Base::Octal => 8,
            Base::Hexadecimal => 16,
        }
    }

    pub fn is_decimal(self) -> bool
        ensures { result ≡ numbers.is_decimal self }
    {
        match self {
            Base::Decimal => true,
            Base::Octal | Base::Hexadecimal => false,
        }
    }

    /// What stands after the prefix of the base.
    pub fn body<'a>(self, text: &'a [u8]) -> &'a [u8]
        ensures { result.now ≡ spec.body_of self text.now }
    {
        match (self, text) {
            (Base::Hexadecimal, [_, _, body @ ..]) => body,
            _ => text,
        }
    }

    /// How many digits of the base stand at the start.
    pub fn digits_len(self, bytes: &[u8]) -> usize
        ensures value { result ≡ spec.digits_len self bytes.now }
        ensures within { result ≤ length bytes.now }
    {
        match self {
            Base::Decimal => decimal_len(bytes),
            Base::Octal => octal_len(bytes),
            Base::Hexadecimal => hexadecimal_len(bytes),
        }
    }
}

/// Whether the bytes begin with `0x` or `0X`.
pub fn has_hexadecimal_prefix(text: &[u8]) -> bool
    ensures { result ≡ numbers.has_hexadecimal_prefix text.now }
{
    match text {
        [zero, x, ..] => *zero == b'0' && (*x == b'x' || *x == b'X'),
        _ => false,
    }
}
