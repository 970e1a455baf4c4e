//! Tokens that are taken if they are next: to look first and then to take has a way out for the end
//! of the tokens, where no call comes.
ghost use Rattle.std.specs.Prelude.{◌≡◌, IfSome};
ghost use Rattle.mc_lex.specs.Tokens.{tok_of};
ghost use Rattle.mc_grammar.specs.Words as words;
ghost use Rattle.mc_grammar.specs.steps.Parsers as spec;
ghost use Rattle.parse_cursor.specs.Cursors.{left_of, marked};
ghost use Rattle.parse_cursor.specs.Short.{IsShort};
ghost use Rattle.parse_expressions.specs.Accepts.{Accepts};

use mc_lex::Token;
use parse_cursor::cursor::{Cursor, is_punctuator};

/// Takes the next token, if it is this punctuator.
#[inline(never)]
#[tactic(auto, unfolding(parse_cursor::specs::Cursors::marked_all))]
pub fn accept<'t, 'a>(tokens: &mut Cursor<'t, 'a>, text: &[u8]) -> Option<&'t Token<'a>>
    ensures token { Accepts (λ token. marked tokens.old.names (tok_of token.now))
        (words.sees text.now (left_of tokens.old)) (spec.take (left_of tokens.old)) result
        (left_of tokens.old) (left_of tokens.new) }
    ensures short { IfSome result (λ token. IsShort token.now) }
{
    match tokens.rest {
        [first, rest @ ..] if is_punctuator(first, text) => {
            tokens.rest = rest;
            Some(first)
        }
        _ => None,
    }
}

/// Takes the next token, if it is an identifier that names no type.
#[inline(never)]
#[tactic(auto, unfolding(parse_cursor::specs::Cursors::marked_all))]
pub fn accept_name<'t, 'a>(tokens: &mut Cursor<'t, 'a>) -> Option<&'t Token<'a>>
    ensures token { Accepts (λ token. marked tokens.old.names (tok_of token.now))
        (words.next_is words.is_name (left_of tokens.old)) (spec.take (left_of tokens.old)) result
        (left_of tokens.old) (left_of tokens.new) }
    ensures short { IfSome result (λ token. IsShort token.now) }
{
    match tokens.rest {
        [first, rest @ ..] if tokens.sees_name() => {
            tokens.rest = rest;
            Some(first)
        }
        _ => None,
    }
}
