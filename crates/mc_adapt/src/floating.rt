//! Floating constants.
ghost use Rattle.std.specs.Prelude.{◌≡◌};
ghost use Rattle.mc_lex.specs.Numbers as numbers;

/// Whether one of the bytes is `byte`.
fn has(byte: u8, text: &[u8]) -> bool
    ensures { result ≡ numbers.has byte text.now }
{
    let mut left = text;
    while let [first, later @ ..] = left {
        if *first == byte {
            return true;
        }
        left = later;
    }
    false
}

/// Whether the bytes begin with `0x` or `0X`.
fn has_hexadecimal_prefix(text: &[u8]) -> bool
    ensures { result ≡ numbers.has_hexadecimal_prefix text.now }
{
    match text {
        [zero, x, ..] => *zero == b'0' && (*x == b'x' || *x == b'X'),
        _ => false,
    }
}

/// Whether a number has a fraction or an exponent (C17 6.4.4.2).
pub(crate) fn looks_floating(text: &[u8]) -> bool
    ensures { result ≡ numbers.looks_floating text.now }
{
    if has(b'.', text) {
        true
    } else if has_hexadecimal_prefix(text) {
        has(b'p', text) || has(b'P', text)
    } else {
        has(b'e', text) || has(b'E', text)
    }
}
