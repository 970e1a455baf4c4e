//! Which row of the table stands at a place, or which token of the source.
ghost use Rattle.std.specs.Prelude.{◌≡◌};
ghost use Rattle.mc_lex.specs.Tokens.{tok_of, toks_of};
ghost use Rattle.reread_pieces.specs.Words.{texts};
ghost use Rattle.reread_pieces.specs.Rows as spec;

use crate::bracket::Bracket;
use crate::piece::What;
use crate::shapes::{
    CONDITION, DECISION, HIT, LABEL, REGISTERS, RETURN, STATEMENT, SWITCH, VALUE_END, begins,
    number_at,
};
use crate::site::{Before, Site};
use crate::word::{Word, begins_declaration, is, may_begin_declaration, word_of};
use mc_lex::Token;

// ---- the place

fn is_front(before: Before) -> bool
    ensures { result ≡ spec.is_front before }
{
    matches!(before, Before::Front | Before::Registers)
}

pub(crate) fn is_body(innermost: Option<Bracket>) -> bool
    ensures { result ≡ spec.is_body innermost }
{
    matches!(innermost, Some(Bracket::Body))
}

fn is_statement(innermost: Option<Bracket>) -> bool
    ensures { result ≡ spec.is_statement innermost }
{
    matches!(innermost, Some(Bracket::Statement))
}

fn is_value(innermost: Option<Bracket>) -> bool
    ensures { result ≡ spec.is_value innermost }
{
    matches!(innermost, Some(Bracket::Value))
}

/// Whether the `{` of a function's body would stand here: outside all brackets, after `)`.
fn begins_body(site: Site) -> bool
    ensures { result ≡ spec.begins_body site }
{
    site.innermost.is_none() && matches!(site.before, Before::Parenthesis)
}

/// The tokens after this number of them.
pub(crate) fn after<'t, 'a>(count: usize, tokens: &'t [Token<'a>]) -> &'t [Token<'a>]
    ensures { toks_of result.now ≡ spec.after_tokens count (toks_of tokens.now) }
{
    let mut left = tokens;
    let mut more = count;
    while let [_, later @ ..] = left {
        if more == 0 {
            return left;
        }
        more -= 1;
        left = later;
    }
    left
}

/// Whether a `}` stands next.
fn sees_brace(tokens: &[Token<'_>]) -> bool
    ensures { result ≡ spec.sees_brace (toks_of tokens.now) }
{
    match tokens {
        [] => false,
        [token, ..] => is(token, b"}"),
    }
}

// ---- the rows of each first token

#[tactic(auto, unfolding(crate::specs::Shapes::hit))]
fn is_hit(tokens: &[Token<'_>]) -> bool
    ensures { result ≡ spec.is_hit (toks_of tokens.now) }
{
    begins(&HIT, tokens)
}

fn hit_row(site: Site, tokens: &[Token<'_>]) -> Option<What>
    ensures { result ≡ spec.hit_row site (toks_of tokens.now) }
{
    if !is_hit(tokens) {
        return None;
    }
    let bit = number_at(2, tokens);
    let later = after(5, tokens);
    if is_front(site.before) {
        Some(What::Entry { bit })
    } else if is_body(site.innermost) && sees_brace(later) {
        Some(What::Exit { bit })
    } else if site.inside && may_begin_declaration(later) {
        Some(What::Declaration { bit })
    } else {
        None
    }
}

#[tactic(auto, unfolding(crate::specs::Shapes::label))]
fn is_label(tokens: &[Token<'_>]) -> bool
    ensures { result ≡ spec.is_label (toks_of tokens.now) }
{
    begins(&LABEL, tokens)
}

fn label_row(site: Site, tokens: &[Token<'_>]) -> Option<What>
    ensures { result ≡ spec.label_row site (toks_of tokens.now) }
{
    if !is_label(tokens) {
        return None;
    }
    let register = number_at(2, tokens);
    let bit = number_at(4, tokens);
    if site.inside && matches!(site.before, Before::Colon) {
        Some(What::Label { register, bit })
    } else if is_statement(site.innermost) {
        Some(What::Default { register, bit })
    } else {
        None
    }
}

#[tactic(auto, unfolding(crate::specs::Shapes::decision))]
fn is_decision(tokens: &[Token<'_>]) -> bool
    ensures { result ≡ spec.is_decision (toks_of tokens.now) }
{
    begins(&DECISION, tokens)
}

#[tactic(auto, unfolding(crate::specs::Shapes::condition))]
fn is_condition(tokens: &[Token<'_>]) -> bool
    ensures { result ≡ spec.is_condition (toks_of tokens.now) }
{
    begins(&CONDITION, tokens)
}

#[tactic(auto, unfolding(crate::specs::Shapes::switch))]
fn is_switch(tokens: &[Token<'_>]) -> bool
    ensures { result ≡ spec.is_switch (toks_of tokens.now) }
{
    begins(&SWITCH, tokens)
}

fn decision_row(site: Site, tokens: &[Token<'_>]) -> Option<What>
    ensures { result ≡ spec.decision_row site (toks_of tokens.now) }
{
    if is_decision(tokens) && !matches!(site.before, Before::Name) {
        Some(What::Decision {
            register: number_at(2, tokens),
            base: number_at(4, tokens),
        })
    } else {
        None
    }
}

fn condition_row(site: Site, tokens: &[Token<'_>]) -> Option<What>
    ensures { result ≡ spec.condition_row site (toks_of tokens.now) }
{
    if is_condition(tokens) && !matches!(site.before, Before::Name) {
        Some(What::Condition {
            register: number_at(2, tokens),
            on_true: number_at(4, tokens),
            on_false: number_at(6, tokens),
        })
    } else {
        None
    }
}

fn switch_row(site: Site, tokens: &[Token<'_>]) -> Option<What>
    ensures { result ≡ spec.switch_row site (toks_of tokens.now) }
{
    if is_switch(tokens) && !matches!(site.before, Before::Name) {
        Some(What::Switch {
            register: number_at(2, tokens),
        })
    } else {
        None
    }
}

#[tactic(auto, unfolding(crate::specs::Shapes::bare_return))]
fn is_return(tokens: &[Token<'_>]) -> bool
    ensures { result ≡ spec.is_return (toks_of tokens.now) }
{
    begins(&RETURN, tokens)
}

#[tactic(auto, unfolding(crate::specs::Shapes::statement))]
fn is_counted(tokens: &[Token<'_>]) -> bool
    ensures { result ≡ spec.is_counted (toks_of tokens.now) }
{
    begins(&STATEMENT, tokens)
}

/// What a `{` begins as the first token of a counted statement.
fn exit_row(value: &[&[u8]], tokens: &[Token<'_>]) -> Option<What>
    ensures { result ≡ spec.exit_row (texts value.now) (toks_of tokens.now) }
{
    if is_return(tokens) {
        Some(What::Return {
            bit: number_at(3, tokens),
        })
    } else if begins(value, after(1, tokens)) {
        Some(What::Value)
    } else {
        None
    }
}

/// Whether neither a declaration nor the probe of one follows.
fn is_no_declaration(tokens: &[Token<'_>]) -> bool
    ensures { result ≡ spec.is_no_declaration (toks_of tokens.now) }
{
    !begins_declaration(tokens) && !is_hit(tokens)
}

fn brace(site: Site) -> Bracket
    ensures { result ≡ spec.brace site }
{
    if begins_body(site) {
        Bracket::Body
    } else {
        Bracket::Brace
    }
}

fn brace_row(site: Site, value: &[&[u8]], tokens: &[Token<'_>]) -> Option<What>
    ensures { result ≡ spec.brace_row site (texts value.now) (toks_of tokens.now) }
{
    if matches!(site.before, Before::Statement) {
        exit_row(value, tokens)
    } else if site.inside && is_counted(tokens) && is_no_declaration(after(6, tokens)) {
        Some(What::Statement {
            bit: number_at(3, tokens),
        })
    } else {
        Some(What::Opening {
            bracket: brace(site),
        })
    }
}

fn parenthesis_end(innermost: Option<Bracket>) -> Option<What>
    ensures { result ≡ spec.parenthesis_end innermost }
{
    match innermost {
        Some(Bracket::Parenthesis) => Some(What::Closing),
        Some(Bracket::Operand) => Some(What::OperandEnd),
        _ => None,
    }
}

fn square_end(innermost: Option<Bracket>) -> Option<What>
    ensures { result ≡ spec.square_end innermost }
{
    match innermost {
        Some(Bracket::Square) => Some(What::Closing),
        _ => None,
    }
}

fn brace_end(site: Site) -> Option<What>
    ensures { result ≡ spec.brace_end site }
{
    match site.innermost {
        Some(Bracket::Brace) | Some(Bracket::Body) => Some(What::Closing),
        Some(Bracket::Exit) => Some(What::ReturnEnd),
        Some(Bracket::Statement) => {
            if matches!(site.before, Before::Statement) {
                None
            } else {
                Some(What::StatementEnd)
            }
        }
        _ => None,
    }
}

#[tactic(auto, unfolding(crate::specs::Shapes::value_end))]
fn is_value_end(tokens: &[Token<'_>]) -> bool
    ensures { result ≡ spec.is_value_end (toks_of tokens.now) }
{
    begins(&VALUE_END, tokens)
}

fn semicolon_row(site: Site, tokens: &[Token<'_>]) -> Option<What>
    ensures { result ≡ spec.semicolon_row site (toks_of tokens.now) }
{
    if !is_value(site.innermost) {
        Some(What::Source)
    } else if is_value_end(tokens) {
        Some(What::ValueEnd {
            bit: number_at(3, tokens),
        })
    } else {
        None
    }
}

#[tactic(auto, unfolding(crate::specs::Shapes::registers))]
fn is_registers(tokens: &[Token<'_>]) -> bool
    ensures { result ≡ spec.is_registers (toks_of tokens.now) }
{
    begins(&REGISTERS, tokens)
}

fn other_row(site: Site, tokens: &[Token<'_>]) -> Option<What>
    ensures { result ≡ spec.other_row site (toks_of tokens.now) }
{
    let count = number_at(3, tokens);
    if matches!(site.before, Before::Front) && is_registers(tokens) && count != 0 {
        Some(What::Registers { count })
    } else {
        Some(What::Source)
    }
}

// ---- all rows

fn row_of(word: Word, site: Site, value: &[&[u8]], tokens: &[Token<'_>]) -> Option<What>
    ensures { result ≡ spec.row_of word site (texts value.now) (toks_of tokens.now) }
{
    match word {
        Word::Hit => hit_row(site, tokens),
        Word::Label => label_row(site, tokens),
        Word::Decision => decision_row(site, tokens),
        Word::Condition => condition_row(site, tokens),
        Word::Switch => switch_row(site, tokens),
        Word::Inner => None,
        Word::OpenParenthesis => Some(What::Opening {
            bracket: Bracket::Parenthesis,
        }),
        Word::CloseParenthesis => parenthesis_end(site.innermost),
        Word::OpenSquare => Some(What::Opening {
            bracket: Bracket::Square,
        }),
        Word::CloseSquare => square_end(site.innermost),
        Word::OpenBrace => brace_row(site, value, tokens),
        Word::CloseBrace => brace_end(site),
        Word::Semicolon => semicolon_row(site, tokens),
        Word::Other => other_row(site, tokens),
    }
}

/// What stands at a place where a token stands, or nothing where none of the rows and no token of
/// the source can.
pub(crate) fn row_at(site: Site, value: &[&[u8]], tokens: &[Token<'_>]) -> Option<What>
    ensures { result ≡ spec.row_at site (texts value.now) (toks_of tokens.now) }
{
    match tokens {
        [] => None,
        [token, ..] => row_of(word_of(token), site, value, tokens),
    }
}
