//! Keywords and names: the letters, digits and `_` that stand together.
ghost use Rattle.std.specs.Prelude.{◌≡◌, ◌≤◌, length};
ghost use Rattle.std.specs.List.{prefix_len};
ghost use Rattle.mc_lex.specs.Bytes.{is_word_byte};
ghost use Rattle.mc_lex.specs.Words as words;
ghost use Rattle.mc_lex.specs.Words.{one_of, keywords, outside_keywords, own_words};
ghost use Rattle.mc_lex.specs.Words.{probe_names, reserved};
ghost use Rattle.mc_lex.specs.steps.Scanner as spec;

use crate::byte::{is_letter, is_word_byte};
use crate::fault_kind::FaultKind;
use crate::table::is_one_of;
use crate::token::{Dialect, TokenKind};

/// How many letters, digits and `_` stand at the start.
fn word_bytes_len(bytes: &[u8]) -> usize
    ensures value { result ≡ prefix_len is_word_byte bytes.now }
    ensures within { result ≤ length bytes.now }
{
    bytes.iter().take_while(|b| is_word_byte(**b)).count()
}

/// The length of the word at the start, or 0.
pub fn word_len(bytes: &[u8]) -> usize
    ensures value { result ≡ spec.word_len bytes.now }
    ensures within { result ≤ length bytes.now }
{
    match bytes {
        [] => 0,
        [first, rest @ ..] => {
            if is_letter(*first) {
                1 + word_bytes_len(rest)
            } else {
                0
            }
        }
    }
}

/// The keywords that are kept and begin with this byte (C17 6.4.1).
fn keywords_from(first: u8) -> &'static [&'static [u8]]
    ensures { spec.texts result.now ≡ spec.from_byte first keywords }
{
    match first {
        b'b' => &[b"break"],
        b'c' => &[b"case", b"char", b"const", b"continue"],
        b'd' => &[b"default", b"do"],
        b'e' => &[b"else", b"enum", b"extern"],
        b'f' => &[b"for"],
        b'g' => &[b"goto"],
        b'i' => &[b"if", b"int"],
        b'l' => &[b"long"],
        b'r' => &[b"return"],
        b's' => &[b"short", b"signed", b"static", b"struct", b"switch"],
        b't' => &[b"typedef"],
        b'u' => &[b"unsigned"],
        b'v' => &[b"void"],
        b'w' => &[b"while"],
        b'_' => &[b"_Bool"],
        _ => &[],
    }
}

/// The keywords that are left out and begin with this byte.
fn outside_keywords_from(first: u8) -> &'static [&'static [u8]]
    ensures { spec.texts result.now ≡ spec.from_byte first outside_keywords }
{
    match first {
        b'a' => &[b"auto"],
        b'd' => &[b"double"],
        b'f' => &[b"float"],
        b'i' => &[b"inline"],
        b'r' => &[b"register", b"restrict"],
        b's' => &[b"sizeof"],
        b'u' => &[b"union"],
        b'v' => &[b"volatile"],
        b'_' => &[
            b"_Alignas",
            b"_Alignof",
            b"_Atomic",
            b"_Complex",
            b"_Generic",
            b"_Imaginary",
            b"_Noreturn",
            b"_Static_assert",
            b"_Thread_local",
        ],
        _ => &[],
    }
}

/// The names of the probes that begin with this byte.
fn probe_names_from(first: u8) -> &'static [&'static [u8]]
    ensures { spec.texts result.now ≡ spec.from_byte first probe_names }
{
    match first {
        b'M' => &[b"MCDC_H", b"MCDC_L", b"MCDC_W", b"MCDC_D", b"MCDC_C"],
        b'm' => &[b"mcdc_r", b"mcdc_v"],
        _ => &[],
    }
}

fn is_keyword(text: &[u8]) -> bool
    ensures { result ≡ one_of keywords text.now }
{
    match text {
        [] => false,
        [first, ..] => is_one_of(keywords_from(*first), text),
    }
}

fn is_outside_keyword(text: &[u8]) -> bool
    ensures { result ≡ one_of outside_keywords text.now }
{
    match text {
        [] => false,
        [first, ..] => is_one_of(outside_keywords_from(*first), text),
    }
}

fn is_probe_name(text: &[u8]) -> bool
    ensures { result ≡ one_of probe_names text.now }
{
    match text {
        [] => false,
        [first, ..] => is_one_of(probe_names_from(*first), text),
    }
}

fn is_own_word(text: &[u8], dialect: Dialect) -> bool
    ensures { result ≡ one_of (own_words dialect) text.now }
{
    match dialect {
        Dialect::Plain => false,
        Dialect::Instrumented => is_probe_name(text),
    }
}

fn is_reserved(text: &[u8], dialect: Dialect) -> bool
    ensures { result ≡ one_of (reserved dialect) text.now }
{
    match dialect {
        Dialect::Plain => is_probe_name(text),
        Dialect::Instrumented => false,
    }
}

/// What a word is.
pub fn word_kind(text: &[u8], dialect: Dialect) -> Result<TokenKind, FaultKind>
    ensures { result ≡ words.word_kind dialect text.now }
{
    if is_keyword(text) || is_own_word(text, dialect) {
        Ok(TokenKind::Keyword)
    } else if is_outside_keyword(text) || is_reserved(text, dialect) {
        Err(FaultKind::OutsideWord)
    } else {
        Ok(TokenKind::Identifier)
    }
}
