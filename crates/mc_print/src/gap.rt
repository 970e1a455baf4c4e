//! What stands between tokens.
ghost use Rattle.std.specs.Prelude.{◌≡◌, Bool};
ghost use Rattle.std.specs.Str.{bytes_eq};
ghost use Rattle.mc_print.specs.Pens.{gap_after};
ghost use Rattle.mc_print.specs.steps.Holds.{gap_bytes};

use crate::words::is;

/// What stands before the next token.
#[derive(Clone, Copy)]
pub(crate) enum Gap {
    Nothing,
    Blank,
    Line,
}

/// The bytes of a gap.
pub(crate) fn bytes_of(gap: Gap) -> &'static [u8]
    ensures { result.now ≡ gap_bytes gap }
{
    match gap {
        Gap::Nothing => b"",
        Gap::Blank => b" ",
        Gap::Line => b"\n",
    }
}

/// The gap after a token.
pub(crate) fn after(text: &[u8]) -> Gap
    ensures { gap_bytes result ≡ gap_after text.now }
{
    if is(text, b";") || is(text, b"{") || is(text, b"}") {
        Gap::Line
    } else {
        Gap::Blank
    }
}
