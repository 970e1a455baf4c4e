//! Sets of bytes.
ghost use Rattle.std.specs.Prelude.{◌≡◌};
ghost use Rattle.mc_lex.specs.Bytes as bytes;
ghost use Rattle.mc_lex.specs.Gaps as gaps;

pub(crate) fn is_digit(b: u8) -> bool
    ensures { result ≡ bytes.is_digit b }
{
    b >= b'0' && b <= b'9'
}

pub(crate) fn is_octal(b: u8) -> bool
    ensures { result ≡ bytes.is_octal b }
{
    b >= b'0' && b <= b'7'
}

pub(crate) fn is_line_end(b: u8) -> bool
    ensures { result ≡ bytes.is_line_end b }
{
    b == b'\n'
}

/// Space, tab, VT, FF or CR.
pub(crate) fn is_white_space_in_line(b: u8) -> bool
    ensures { result ≡ bytes.is_white_space_in_line b }
{
    (b == b' ' || (b >= 9 && b <= 13)) && !is_line_end(b)
}

pub(crate) fn is_digit_or_white_space(b: u8) -> bool
    ensures { result ≡ gaps.is_digit_or_white_space b }
{
    is_digit(b) || is_white_space_in_line(b)
}

/// A byte of a name in double quotes.
pub(crate) fn is_quoted(b: u8) -> bool
    ensures { result ≡ gaps.is_quoted b }
{
    !is_line_end(b) && b != b'"'
}
