//! Taking the next token.
ghost use Rattle.std.specs.Prelude.{◌≡◌, ◌<◌, ◌^◌, All, IfOk, length};
ghost use Rattle.mc_lex.specs.Tokens.{tok_of};
ghost use Rattle.mc_grammar.specs.Words as words;
ghost use Rattle.mc_grammar.specs.Words.{lexeme_of};
ghost use Rattle.mc_grammar.specs.Places.{at, name_at};
ghost use Rattle.mc_tree.specs.Views.{name_of};
ghost use Rattle.mc_grammar.specs.steps.Parsers as spec;
ghost use Rattle.parse_cursor.specs.Cursors.{Gives, left_of, marked};
ghost use Rattle.parse_cursor.specs.Short.{IsShort};

use crate::cursor::Cursor;
use crate::fault::Fault;
use mc_lex::Token;
use mc_span::Span;
use mc_tree::Identifier;

/// Where a token stands.
pub fn place(token: &Token<'_>) -> Span
    requires { IsShort token.now }
    ensures { result ≡ at (lexeme_of (tok_of token.now)) }
{
    Span {
        start: token.start,
        end: token.start + token.text.len() as u32,
    }
}

/// A name and where it stands.
pub fn identifier<'a>(token: &Token<'a>) -> Identifier<'a>
    requires { IsShort token.now }
    ensures { name_of result ≡ name_at (lexeme_of (tok_of token.now)) }
{
    Identifier {
        text: token.text,
        span: place(token),
    }
}

impl<'t, 'a> Cursor<'t, 'a> {
    /// Where the next token stands.
    #[tactic(auto, unfolding(crate::specs::Cursors::marked_all))]
    pub fn first(&self) -> Result<Span, Fault>
        ensures { Gives spec.same (spec.first (left_of self.now)) result (left_of self.now) }
    {
        match self.rest {
            [] => Err(Fault::Syntax),
            [first, ..] => Ok(place(first)),
        }
    }

    /// Takes the next token.
    #[tactic(auto, unfolding(crate::specs::Cursors::marked_all))]
    pub fn take(&mut self) -> Result<&'t Token<'a>, Fault>
        ensures token { Gives (λ token. marked self.old.names (tok_of token.now))
            (spec.take (left_of self.old)) result (left_of self.new) }
        ensures names { self.new.names ≡ self.old.names }
        ensures short { IfOk result (λ token. IsShort token.now) }
    {
        match self.rest {
            [] => Err(Fault::Syntax),
            [first, rest @ ..] => {
                self.rest = rest;
                Ok(first)
            }
        }
    }

    /// Takes the next token, which has to be this punctuator.
    #[tactic(auto, unfolding(mc_grammar::specs::steps::Parsers::accept))]
    pub fn expect(&mut self, text: &[u8]) -> Result<&'t Token<'a>, Fault>
        ensures token { Gives (λ token. marked self.old.names (tok_of token.now))
            (spec.expect text.now (left_of self.old)) result (left_of self.new) }
        ensures names { self.new.names ≡ self.old.names }
        ensures short { IfOk result (λ token. IsShort token.now) }
    {
        if self.sees(text) {
            self.take()
        } else {
            Err(Fault::Syntax)
        }
    }

    /// Takes the next token, which has to be this keyword.
    #[tactic(auto, unfolding(mc_grammar::specs::steps::Parsers::accept))]
    pub fn expect_keyword(&mut self, text: &[u8]) -> Result<&'t Token<'a>, Fault>
        ensures token { Gives (λ token. marked self.old.names (tok_of token.now))
            (spec.expect_keyword text.now (left_of self.old)) result (left_of self.new) }
        ensures names { self.new.names ≡ self.old.names }
        ensures short { IfOk result (λ token. IsShort token.now) }
    {
        if self.sees_keyword(text) {
            self.take()
        } else {
            Err(Fault::Syntax)
        }
    }

    /// Takes the next token, which has to be an identifier that names no type.
    #[tactic(auto, unfolding(mc_grammar::specs::steps::Parsers::accept))]
    pub fn expect_name(&mut self) -> Result<&'t Token<'a>, Fault>
        ensures token { Gives (λ token. marked self.old.names (tok_of token.now))
            (spec.accept words.is_name (left_of self.old)) result (left_of self.new) }
        ensures names { self.new.names ≡ self.old.names }
        ensures short { IfOk result (λ token. IsShort token.now) }
    {
        if self.sees_name() {
            self.take()
        } else {
            Err(Fault::Syntax)
        }
    }

    /// Takes the next token, which has to be an identifier.
    #[tactic(auto, unfolding(mc_grammar::specs::steps::Parsers::accept))]
    pub fn expect_tag(&mut self) -> Result<&'t Token<'a>, Fault>
        ensures token { Gives (λ token. marked self.old.names (tok_of token.now))
            (spec.accept words.is_tag (left_of self.old)) result (left_of self.new) }
        ensures names { self.new.names ≡ self.old.names }
        ensures short { IfOk result (λ token. IsShort token.now) }
    {
        if self.sees_tag() {
            self.take()
        } else {
            Err(Fault::Syntax)
        }
    }

    /// Goes back to these tokens, to the first that stands at this place or after it.
    pub fn go_back(&mut self, tokens: &'t [Token<'a>], start: u32)
        requires short { All IsShort tokens.now }
        requires few { length tokens.now < 2 ^ 31 }
        ensures { self.new.names ≡ self.old.names }
    {
        self.rest = tokens;
        for _turn in 0..self.turns() {
            match self.rest {
                [first, ..] if first.start < start => {}
                _ => return,
            }
            if self.take().is_err() {
                return;
            }
        }
    }
}
