//! Punctuators, and the openings of literals.
ghost use Rattle.std.specs.Prelude.{◌≡◌};
ghost use Rattle.mc_lex.specs.Words.{one_of};
ghost use Rattle.mc_lex.specs.steps.Scanner as spec;

use crate::fault_kind::FaultKind;
use crate::table::{first_of, is_one_of};
use crate::token::TokenKind;

/// The punctuators and openings of literals that begin with this byte, the longest first.
fn punctuators_from(first: u8) -> &'static [&'static [u8]]
    ensures { spec.texts result.now ≡ spec.from_byte first spec.punctuators_and_openings }
{
    match first {
        b'[' => &[b"["],
        b']' => &[b"]"],
        b'(' => &[b"("],
        b')' => &[b")"],
        b'{' => &[b"{"],
        b'}' => &[b"}"],
        b',' => &[b","],
        b';' => &[b";"],
        b'?' => &[b"?"],
        b'~' => &[b"~"],
        b'=' => &[b"==", b"="],
        b'+' => &[b"++", b"+=", b"+"],
        b'-' => &[b"--", b"-=", b"->", b"-"],
        b'*' => &[b"*=", b"*"],
        b'/' => &[b"/=", b"/"],
        b'%' => &[b"%=", b"%>", b"%:", b"%"],
        b'<' => &[b"<<=", b"<<", b"<=", b"<:", b"<%", b"<"],
        b'>' => &[b">>=", b">>", b">=", b">"],
        b'&' => &[b"&&", b"&=", b"&"],
        b'|' => &[b"||", b"|=", b"|"],
        b'^' => &[b"^=", b"^"],
        b'!' => &[b"!=", b"!"],
        b':' => &[b":>", b":"],
        b'.' => &[b"...", b"."],
        b'"' => &[b"\""],
        b'L' => &[b"L\"", b"L'"],
        b'u' => &[b"u8\"", b"u\"", b"u'"],
        b'U' => &[b"U\"", b"U'"],
        _ => &[],
    }
}

/// The punctuators that are left out, and the openings of literals.
const OUTSIDE_PUNCTUATORS_AND_OPENINGS: [&[u8]; 15] = [
    b"->", b"...", b"<:", b":>", b"<%", b"%>", b"%:", b"\"", b"L\"", b"u\"", b"U\"", b"u8\"",
    b"L'", b"u'", b"U'",
];

/// Whether the byte is a punctuator by itself and begins no other one.
fn stands_alone(b: u8) -> bool
    ensures { result ≡ spec.stands_alone b }
{
    match b {
        b'[' | b']' | b'(' | b')' | b'{' | b'}' | b',' | b';' | b'?' | b'~' => true,
        _ => false,
    }
}

/// The length of the longest punctuator or opening of a literal at the start, or 0. The first byte
/// says which of them can stand there.
pub fn punctuator_len(bytes: &[u8]) -> usize
    ensures { result ≡ spec.punctuator_len bytes.now }
{
    match bytes {
        [] => 0,
        [first, _later @ ..] => first_of(punctuators_from(*first), bytes),
    }
}

/// Whether the first byte is a punctuator by itself and begins no other one.
fn begins_alone(text: &[u8]) -> bool
    ensures { result ≡ spec.begins_alone text.now }
{
    match text {
        [] => false,
        [first, ..] => stands_alone(*first),
    }
}

#[tactic(auto, using(crate::proofs::Heads::lone_inside), unfolding(crate::specs::steps::Scanner::outside_punctuators_and_openings, crate::specs::Punctuators::outside_punctuators, crate::specs::Punctuators::literal_openings))]
fn is_outside_punctuator(text: &[u8]) -> bool
    ensures { result ≡ one_of spec.outside_punctuators_and_openings text.now }
{
    if begins_alone(text) {
        false
    } else {
        is_one_of(&OUTSIDE_PUNCTUATORS_AND_OPENINGS, text)
    }
}

/// What a punctuator or an opening of a literal is.
pub fn punctuator_kind(text: &[u8]) -> Result<TokenKind, FaultKind>
    ensures { result ≡ spec.punctuator_kind text.now }
{
    if is_outside_punctuator(text) {
        Err(FaultKind::OutsideWord)
    } else {
        Ok(TokenKind::Punctuator)
    }
}
