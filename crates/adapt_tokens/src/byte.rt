//! Sets of bytes.
ghost use Rattle.std.specs.Prelude.{◌≡◌, ◌≤◌, length};
ghost use Rattle.std.specs.List.{prefix_len};
ghost use Rattle.mc_lex.specs.Bytes as sets;
ghost use Rattle.mc_lex.specs.steps.Scanner.{still_first};
ghost use Rattle.adapt_tokens.specs.Literals as literals;
ghost use Rattle.adapt_tokens.specs.steps.Next as spec;

pub(crate) fn is_digit(b: u8) -> bool
    ensures { result ≡ sets.is_digit b }
{
    b >= b'0' && b <= b'9'
}

/// A letter or `_`.
pub(crate) fn is_letter(b: u8) -> bool
    ensures { result ≡ sets.is_letter b }
{
    (b >= b'a' && b <= b'z') || (b >= b'A' && b <= b'Z') || b == b'_'
}

pub(crate) fn is_word_byte(b: u8) -> bool
    ensures { result ≡ sets.is_word_byte b }
{
    is_letter(b) || is_digit(b)
}

pub(crate) fn is_line_end(b: u8) -> bool
    ensures { result ≡ sets.is_line_end b }
{
    b == b'\n'
}

/// Space, tab, LF, VT, FF or CR (C17 6.4, white space).
pub(crate) fn is_white_space(b: u8) -> bool
    ensures { result ≡ sets.is_white_space b }
{
    b == b' ' || (b >= 9 && b <= 13)
}

fn is_white_space_in_line(b: u8) -> bool
    ensures { result ≡ sets.is_white_space_in_line b }
{
    is_white_space(b) && !is_line_end(b)
}

/// `'` or `"`.
pub(crate) fn is_quote(b: u8) -> bool
    ensures { result ≡ literals.is_quote b }
{
    b == b'\'' || b == b'"'
}

/// How many bytes are left of the line.
pub(crate) fn line_len(bytes: &[u8]) -> usize
    ensures value { result ≡ spec.line_len bytes.now }
    ensures within { result ≤ length bytes.now }
{
    bytes.iter().take_while(|b| !is_line_end(**b)).count()
}

/// How many letters, digits and `_` stand at the start.
pub(crate) fn word_len(bytes: &[u8]) -> usize
    ensures value { result ≡ prefix_len sets.is_word_byte bytes.now }
    ensures within { result ≤ length bytes.now }
{
    bytes.iter().take_while(|b| is_word_byte(**b)).count()
}

/// How much white space of the line stands at the start.
pub(crate) fn space_len(bytes: &[u8]) -> usize
    ensures value { result ≡ prefix_len sets.is_white_space_in_line bytes.now }
    ensures within { result ≤ length bytes.now }
{
    bytes
        .iter()
        .take_while(|b| is_white_space_in_line(**b))
        .count()
}

/// Whether only white space stands on the line before what follows these bytes.
pub(crate) fn still_first(is_first: bool, bytes: &[u8]) -> bool
    ensures { result ≡ still_first is_first bytes.now }
{
    let mut first = is_first;
    let mut left = bytes;
    while let [byte, later @ ..] = left {
        first = is_line_end(*byte) || (is_white_space(*byte) && first);
        left = later;
    }
    first
}
