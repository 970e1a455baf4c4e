//! What the rows of the table insert, token by token.
ghost use Rattle.std.specs.Prelude.{◌≡◌, codes};
ghost use Rattle.std.specs.Str.{bytes_eq};
ghost use Rattle.mc_lex.specs.Tokens.{tok_of, toks_of};
ghost use Rattle.reread_pieces.specs.Words.{texts};
ghost use Rattle.reread_pieces.specs.Shapes as spec;

use crate::word::{is, same};
use mc_lex::{Token, TokenKind};

/// `MCDC_H ( b ) ;`; a `#` stands for a number here and below.
pub(crate) const HIT: [&[u8]; 5] = [b"MCDC_H", b"(", b"#", b")", b";"];

/// `unsigned mcdc_r [ n ] ;`
pub(crate) const REGISTERS: [&[u8]; 6] = [b"unsigned", b"mcdc_r", b"[", b"#", b"]", b";"];

/// `MCDC_L ( r , b ) ;`
pub(crate) const LABEL: [&[u8]; 7] = [b"MCDC_L", b"(", b"#", b",", b"#", b")", b";"];

/// `{ MCDC_H ( b ) ;`
pub(crate) const STATEMENT: [&[u8]; 6] = [b"{", b"MCDC_H", b"(", b"#", b")", b";"];

/// `; MCDC_H ( b ) ; return mcdc_v ; }`
pub(crate) const VALUE_END: [&[u8]; 10] = [
    b";", b"MCDC_H", b"(", b"#", b")", b";", b"return", b"mcdc_v", b";", b"}",
];

/// `{ MCDC_H ( b ) ; return ; }`
pub(crate) const RETURN: [&[u8]; 9] = [
    b"{", b"MCDC_H", b"(", b"#", b")", b";", b"return", b";", b"}",
];

/// `MCDC_D ( r , base ,`
pub(crate) const DECISION: [&[u8]; 6] = [b"MCDC_D", b"(", b"#", b",", b"#", b","];

/// `MCDC_C ( r , t , f ,`
pub(crate) const CONDITION: [&[u8]; 8] = [b"MCDC_C", b"(", b"#", b",", b"#", b",", b"#", b","];

/// `MCDC_W ( r ,`
pub(crate) const SWITCH: [&[u8]; 4] = [b"MCDC_W", b"(", b"#", b","];

/// The value of a constant; 0 for any other kind, and above the greatest number of a text.
fn value_of(kind: TokenKind) -> u32
    ensures { result ≡ spec.value_of kind }
{
    match kind {
        TokenKind::Constant { value, .. } => {
            if value <= 4_294_967_295 {
                value as u32
            } else {
                0
            }
        }
        _ => 0,
    }
}

/// Whether a token is a number of a text: `0` or a decimal constant without suffix, at most
/// 4294967295.
fn is_number(token: &Token<'_>) -> bool
    ensures { result ≡ spec.is_number (tok_of token.now) }
{
    match token.kind {
        TokenKind::Constant {
            value,
            decimal,
            unsigned,
            longs,
        } => { (decimal || is(token, b"0")) && !unsigned && longs == 0 && value <= 4_294_967_295 }
        _ => false,
    }
}

fn fits(slot: &[u8], token: &Token<'_>) -> bool
    ensures { result ≡ spec.fits slot.now (tok_of token.now) }
{
    if same(slot, b"#") {
        is_number(token)
    } else {
        is(token, slot)
    }
}

/// Whether the tokens begin with this shape.
pub(crate) fn begins(shape: &[&[u8]], tokens: &[Token<'_>]) -> bool
    ensures { result ≡ spec.begins (texts shape.now) (toks_of tokens.now) }
{
    let mut slots = shape;
    let mut left = tokens;
    while let [slot, later_slots @ ..] = slots {
        match left {
            [] => return false,
            [token, later @ ..] => {
                if !fits(*slot, token) {
                    return false;
                }
                left = later;
            }
        }
        slots = later_slots;
    }
    true
}

/// The number that this token is, counted from 0.
pub(crate) fn number_at(at: usize, tokens: &[Token<'_>]) -> u32
    ensures { result ≡ spec.number_at at (toks_of tokens.now) }
{
    let mut count = at;
    let mut left = tokens;
    while let [token, later @ ..] = left {
        if count == 0 {
            return value_of(token.kind);
        }
        count -= 1;
        left = later;
    }
    0
}
