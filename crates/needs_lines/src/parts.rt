//! The tokens of parts of a source.
ghost use Rattle.std.specs.Prelude.{◌≡◌, length};
ghost use Rattle.std.specs.List.Sorted.{IsNonDecreasingBy};
ghost use Rattle.std.specs.Str.{bytes_eq};
ghost use Rattle.mc_lex.specs.Tokens.{tok_of, toks_of};
ghost use Rattle.needs_lines.specs.Parts.{are_same, has_name, is_name, tokens_in};

use mc_lex::{Token, TokenKind};
use mc_span::Span;

/// The tokens that begin at the place of a part. Takes no memory: the place is found by halving.
pub(crate) fn tokens_in<'t, 'a>(tokens: &'t [Token<'a>], span: Span) -> &'t [Token<'a>]
    requires { IsNonDecreasingBy (λ t. t.start) tokens.now }
    ensures { toks_of result.now ≡ tokens_in (toks_of tokens.now) span }
{
    let first = tokens.partition_point(|token| token.start < span.start);
    let later = &tokens[first..];
    let count = later.partition_point(|token| token.start < span.end);
    &later[..count]
}

/// Whether the texts of the tokens are the same, one by one.
pub(crate) fn are_same(one: &[Token<'_>], other: &[Token<'_>]) -> bool
    ensures { result ≡ are_same (toks_of one.now) (toks_of other.now) }
{
    let mut ones = one;
    let mut others = other;
    while let [token, later @ ..] = ones {
        let [beside, later_others @ ..] = others else {
            return false;
        };
        if token.text != beside.text {
            return false;
        }
        ones = later;
        others = later_others;
    }
    others.is_empty()
}

fn is_name(kind: TokenKind) -> bool
    ensures { result ≡ is_name kind }
{
    match kind {
        TokenKind::Identifier => true,
        _ => false,
    }
}

/// Whether some token is an identifier.
pub(crate) fn has_name(tokens: &[Token<'_>]) -> bool
    ensures { result ≡ has_name (toks_of tokens.now) }
{
    let mut left = tokens;
    while let [token, later @ ..] = left {
        if is_name(token.kind) {
            return true;
        }
        left = later;
    }
    false
}
