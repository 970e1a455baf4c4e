//! What the next tokens are.
ghost use Rattle.std.specs.Prelude.{◌≡◌, ◌≤◌, ◌+◌, ◌^◌, length};
ghost use Rattle.mc_lex.specs.Tokens.{tok_of, toks_of};
ghost use Rattle.mc_grammar.specs.Words as words;
ghost use Rattle.mc_grammar.specs.Words.{lexeme_of};
ghost use Rattle.mc_grammar.specs.steps.Next.{ended};
ghost use Rattle.parse_cursor.specs.Cursors.{has_name, kind_next, left_of, marked};

use crate::cursor::Cursor;
use mc_lex::{Token, TokenKind};

pub fn is_punctuator(token: &Token<'_>, text: &[u8]) -> bool
    ensures { result ≡ words.is_punctuator text.now (lexeme_of (tok_of token.now)) }
{
    matches!(token.kind, TokenKind::Punctuator) && token.text == text
}

pub fn is_keyword(token: &Token<'_>, text: &[u8]) -> bool
    ensures { result ≡ words.is_keyword text.now (lexeme_of (tok_of token.now)) }
{
    matches!(token.kind, TokenKind::Keyword) && token.text == text
}

fn is_identifier(token: &Token<'_>) -> bool
    ensures { result ≡ words.is_identifier_kind (tok_of token.now).kind }
{
    matches!(token.kind, TokenKind::Identifier)
}

/// A keyword that alone is a specifier.
fn is_plain_specifier(token: &Token<'_>) -> bool
    ensures { result ≡ words.is_plain_specifier (lexeme_of (tok_of token.now)) }
{
    is_keyword(token, b"typedef")
        || is_keyword(token, b"static")
        || is_keyword(token, b"extern")
        || is_keyword(token, b"const")
        || is_keyword(token, b"void")
        || is_keyword(token, b"_Bool")
        || is_keyword(token, b"char")
        || is_keyword(token, b"short")
        || is_keyword(token, b"int")
        || is_keyword(token, b"long")
        || is_keyword(token, b"signed")
        || is_keyword(token, b"unsigned")
}

impl<'t, 'a> Cursor<'t, 'a> {
    /// A bound on how often a loop that takes tokens goes round.
    #[tactic(auto, unfolding(crate::specs::Cursors::marked_all))]
    pub fn turns(&self) -> usize
        ensures turns { result ≡ length (left_of self.now) + 1 }
        ensures few { result ≤ 2 ^ 31 }
    {
        self.rest.len() + 1
    }

    /// How many tokens are left.
    #[tactic(auto, unfolding(crate::specs::Cursors::marked_all))]
    pub fn left(&self) -> usize
        ensures { result ≡ length (left_of self.now) }
    {
        self.rest.len()
    }

    #[tactic(auto, unfolding(crate::specs::Cursors::marked_all))]
    pub fn is_at_end(&self) -> bool
        ensures { result ≡ ended (left_of self.now) }
    {
        self.rest.is_empty()
    }

    /// What the next token is.
    #[tactic(auto, unfolding(crate::specs::Cursors::marked_all))]
    pub fn kind(&self) -> Option<TokenKind>
        ensures { result ≡ kind_next (left_of self.now) }
    {
        match self.rest {
            [] => None,
            [first, ..] => Some(first.kind),
        }
    }

    /// Whether the next token is this punctuator.
    #[tactic(auto, unfolding(crate::specs::Cursors::marked_all))]
    pub fn sees(&self, text: &[u8]) -> bool
        ensures { result ≡ words.sees text.now (left_of self.now) }
    {
        match self.rest {
            [] => false,
            [first, ..] => is_punctuator(first, text),
        }
    }

    /// Whether the next token is this keyword.
    #[tactic(auto, unfolding(crate::specs::Cursors::marked_all))]
    pub fn sees_keyword(&self, text: &[u8]) -> bool
        ensures { result ≡ words.sees_keyword text.now (left_of self.now) }
    {
        match self.rest {
            [] => false,
            [first, ..] => is_keyword(first, text),
        }
    }

    /// Whether a typedef in force has this name.
    #[tactic(auto, using(crate::proofs::Names::has_place))]
    fn has_typedef(&self, name: &[u8]) -> bool
        ensures { result ≡ has_name self.now.names name.now }
    {
        self.names.place(name).is_some()
    }

    /// Whether the token is the name of a typedef in force.
    fn is_type_name(&self, token: &Token<'a>) -> bool
        ensures { result ≡ words.is_type_name (marked self.now.names (tok_of token.now)) }
    {
        is_identifier(token) && self.has_typedef(token.text)
    }

    fn is_name(&self, token: &Token<'a>) -> bool
        ensures { result ≡ words.is_name (marked self.now.names (tok_of token.now)) }
    {
        is_identifier(token) && !self.has_typedef(token.text)
    }

    fn begins_specifiers(&self, token: &Token<'a>) -> bool
        ensures { result ≡ words.begins_specifiers (marked self.now.names (tok_of token.now)) }
    {
        is_plain_specifier(token)
            || is_keyword(token, b"struct")
            || is_keyword(token, b"enum")
            || self.is_type_name(token)
    }

    /// Whether the next token is an identifier that names no type.
    #[tactic(auto, unfolding(crate::specs::Cursors::marked_all))]
    pub fn sees_name(&self) -> bool
        ensures { result ≡ words.next_is words.is_name (left_of self.now) }
    {
        match self.rest {
            [] => false,
            [first, ..] => self.is_name(first),
        }
    }

    /// Whether the next token is an identifier, which a tag has to be.
    #[tactic(auto, unfolding(crate::specs::Cursors::marked_all))]
    pub fn sees_tag(&self) -> bool
        ensures { result ≡ words.next_is words.is_tag (left_of self.now) }
    {
        match self.rest {
            [] => false,
            [first, ..] => is_identifier(first),
        }
    }

    /// Whether the next token begins specifiers.
    #[tactic(auto, unfolding(crate::specs::Cursors::marked_all))]
    pub fn sees_specifiers(&self) -> bool
        ensures { result ≡ words.sees_specifiers (left_of self.now) }
    {
        match self.rest {
            [] => false,
            [first, ..] => self.begins_specifiers(first),
        }
    }

    /// Whether a cast begins: a `(` before a specifier word or a typedef name.
    #[tactic(auto, unfolding(crate::specs::Cursors::marked_all))]
    pub fn sees_cast(&self) -> bool
        ensures { result ≡ words.sees_cast (left_of self.now) }
    {
        match self.rest {
            [first, second, ..] => is_punctuator(first, b"(") && self.begins_specifiers(second),
            _ => false,
        }
    }

    /// Whether a label begins: an identifier before `:`.
    #[tactic(auto, unfolding(crate::specs::Cursors::marked_all))]
    pub fn sees_label(&self) -> bool
        ensures { result ≡ words.sees_label (left_of self.now) }
    {
        match self.rest {
            [first, second, ..] => self.is_name(first) && is_punctuator(second, b":"),
            _ => false,
        }
    }

    /// Whether `void` stands alone before a `)`.
    #[tactic(auto, unfolding(crate::specs::Cursors::marked_all))]
    pub fn sees_void_alone(&self) -> bool
        ensures { result ≡ words.sees_void_alone (left_of self.now) }
    {
        match self.rest {
            [first, second, ..] => is_keyword(first, b"void") && is_punctuator(second, b")"),
            _ => false,
        }
    }

    /// Whether specifiers go on: at a specifier word, and at a typedef name where there is no type
    /// yet.
    #[tactic(auto, unfolding(crate::specs::Cursors::marked_all))]
    pub fn goes_on(&self, has_type: bool) -> bool
        ensures { result ≡ words.go_on has_type (left_of self.now) }
    {
        match self.rest {
            [] => false,
            [first, ..] => {
                is_plain_specifier(first)
                    || is_keyword(first, b"struct")
                    || is_keyword(first, b"enum")
                    || (!has_type && self.is_type_name(first))
            }
        }
    }
}
