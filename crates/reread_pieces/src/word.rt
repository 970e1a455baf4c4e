//! What a token is for the shapes.
ghost use Rattle.std.specs.Prelude.{◌≡◌, codes};
ghost use Rattle.std.specs.Str.{bytes_eq};
ghost use Rattle.mc_lex.specs.Tokens.{tok_of, toks_of};
ghost use Rattle.reread_pieces.specs.Words as spec;

use crate::site::Before;
use mc_lex::{Token, TokenKind};

/// The first token of a row, or a bracket.
#[derive(Clone, Copy, Debug, PartialEq, Eq)]
pub enum Word {
    /// `MCDC_H`
    Hit,
    /// `MCDC_L`
    Label,
    /// `MCDC_D`
    Decision,
    /// `MCDC_C`
    Condition,
    /// `MCDC_W`
    Switch,
    /// `mcdc_r` and `mcdc_v`, which begin no row
    Inner,
    OpenParenthesis,
    CloseParenthesis,
    OpenSquare,
    CloseSquare,
    OpenBrace,
    CloseBrace,
    Semicolon,
    Other,
}

pub(crate) fn same(text: &[u8], other: &[u8]) -> bool
    ensures { result ≡ bytes_eq text.now other.now }
{
    text == other
}

/// Whether a token has this text.
pub(crate) fn is(token: &Token<'_>, text: &[u8]) -> bool
    ensures { result ≡ bytes_eq (tok_of token.now).text text.now }
{
    same(token.text, text)
}

fn probe_word(token: &Token<'_>) -> Word
    ensures { result ≡ spec.probe_word (tok_of token.now) }
{
    if is(token, b"MCDC_H") {
        Word::Hit
    } else if is(token, b"MCDC_L") {
        Word::Label
    } else if is(token, b"MCDC_D") {
        Word::Decision
    } else if is(token, b"MCDC_C") {
        Word::Condition
    } else if is(token, b"MCDC_W") {
        Word::Switch
    } else if is(token, b"mcdc_r") || is(token, b"mcdc_v") {
        Word::Inner
    } else {
        Word::Other
    }
}

pub(crate) fn word_of(token: &Token<'_>) -> Word
    ensures { result ≡ spec.word_of (tok_of token.now) }
{
    if is(token, b"(") {
        Word::OpenParenthesis
    } else if is(token, b")") {
        Word::CloseParenthesis
    } else if is(token, b"[") {
        Word::OpenSquare
    } else if is(token, b"]") {
        Word::CloseSquare
    } else if is(token, b"{") {
        Word::OpenBrace
    } else if is(token, b"}") {
        Word::CloseBrace
    } else if is(token, b";") {
        Word::Semicolon
    } else {
        probe_word(token)
    }
}

fn is_identifier(token: &Token<'_>) -> bool
    ensures { result ≡ spec.is_identifier (tok_of token.now) }
{
    matches!(token.kind, TokenKind::Identifier)
}

fn is_name(token: &Token<'_>) -> bool
    ensures { result ≡ spec.is_name (tok_of token.now) }
{
    is_identifier(token)
        || is(token, b"if")
        || is(token, b"switch")
        || is(token, b"while")
        || is(token, b"for")
}

/// What a token is for what stands directly after it.
pub(crate) fn before_of(token: &Token<'_>) -> Before
    ensures { result ≡ spec.before_of (tok_of token.now) }
{
    if is(token, b":") {
        Before::Colon
    } else if is(token, b")") {
        Before::Parenthesis
    } else if is_name(token) {
        Before::Name
    } else {
        Before::Other
    }
}

/// The words with which specifiers begin (C17 6.7).
const SPECIFIERS: [&[u8]; 14] = [
    b"typedef",
    b"static",
    b"extern",
    b"const",
    b"void",
    b"_Bool",
    b"char",
    b"short",
    b"int",
    b"long",
    b"signed",
    b"unsigned",
    b"struct",
    b"enum",
];

fn is_one_of(table: &[&[u8]], token: &Token<'_>) -> bool
    ensures { result ≡ spec.is_one_of (spec.texts table.now) (tok_of token.now) }
{
    let mut left = table;
    while let [entry, later @ ..] = left {
        if is(token, *entry) {
            return true;
        }
        left = later;
    }
    false
}

#[tactic(auto, unfolding(crate::specs::Words::specifiers))]
fn is_specifier(token: &Token<'_>) -> bool
    ensures { result ≡ spec.is_one_of spec.specifiers (tok_of token.now) }
{
    is_one_of(&SPECIFIERS, token)
}

/// Whether a declaration begins: a word of specifiers, or an identifier before such a word or
/// another identifier.
pub(crate) fn begins_declaration(tokens: &[Token<'_>]) -> bool
    ensures { result ≡ spec.begins_declaration (toks_of tokens.now) }
{
    match tokens {
        [] => false,
        [one] => is_specifier(one),
        [one, other, ..] => {
            is_specifier(one)
                || (is_identifier(one) && (is_identifier(other) || is_specifier(other)))
        }
    }
}

/// Whether a product begins with a name, or a declaration with a typedef name and `*`.
fn begins_product(tokens: &[Token<'_>]) -> bool
    ensures { result ≡ spec.begins_product (toks_of tokens.now) }
{
    match tokens {
        [one, other, ..] => is_identifier(one) && is(other, b"*"),
        _ => false,
    }
}

/// Whether a declaration may begin, for what can be told without a tree.
pub(crate) fn may_begin_declaration(tokens: &[Token<'_>]) -> bool
    ensures { result ≡ spec.may_begin_declaration (toks_of tokens.now) }
{
    begins_declaration(tokens) || begins_product(tokens)
}
