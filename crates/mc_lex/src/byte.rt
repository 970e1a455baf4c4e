//! Sets of bytes.
ghost use Rattle.std.specs.Prelude.{◌≡◌};
ghost use Rattle.mc_lex.specs.Bytes as bytes;
ghost use Rattle.mc_lex.specs.steps.Scanner as spec;

pub fn is_digit(b: u8) -> bool
    ensures { result ≡ bytes.is_digit b }
{
    b >= b'0' && b <= b'9'
}

pub fn is_octal(b: u8) -> bool
    ensures { result ≡ bytes.is_octal b }
{
    b >= b'0' && b <= b'7'
}

pub fn is_hexadecimal(b: u8) -> bool
    ensures { result ≡ bytes.is_hexadecimal b }
{
    is_digit(b) || (b >= b'a' && b <= b'f') || (b >= b'A' && b <= b'F')
}

/// A letter or `_`.
pub fn is_letter(b: u8) -> bool
    ensures { result ≡ bytes.is_letter b }
{
    (b >= b'a' && b <= b'z') || (b >= b'A' && b <= b'Z') || b == b'_'
}

pub fn is_word_byte(b: u8) -> bool
    ensures { result ≡ bytes.is_word_byte b }
{
    is_letter(b) || is_digit(b)
}

pub fn is_line_end(b: u8) -> bool
    ensures { result ≡ bytes.is_line_end b }
{
    b == b'\n'
}

/// Space, tab, LF, VT, FF or CR (C17 6.4, white space).
pub fn is_white_space(b: u8) -> bool
    ensures { result ≡ bytes.is_white_space b }
{
    b == b' ' || (b >= 9 && b <= 13)
}

pub fn is_white_space_in_line(b: u8) -> bool
    ensures { result ≡ bytes.is_white_space_in_line b }
{
    is_white_space(b) && !is_line_end(b)
}

/// Whether the first byte is `byte`.
pub fn starts_with_byte(text: &[u8], byte: u8) -> bool
    ensures { result ≡ spec.starts_with_byte byte text.now }
{
    match text {
        [first, ..] => *first == byte,
        [] => false,
    }
}
