//! Which operator or specifier word the next token is. Each answer is a call of its own, so that
//! what tells the words apart takes no room where expressions nest.
ghost use Rattle.std.specs.Prelude.{◌≡◌};
ghost use Rattle.mc_lex.specs.Tokens.{tok_of};
ghost use Rattle.mc_grammar.specs.Words.{lexeme_of, next_is};
ghost use Rattle.mc_grammar.specs.Operators as spec;
ghost use Rattle.mc_grammar.specs.steps.Next.{assignment_next, step_next, unary_at, unary_next, word_at, word_next};
ghost use Rattle.parse_cursor.specs.Cursors.{left_of};
ghost use Rattle.parse_cursor.specs.Rules.{level_of};

use mc_lex::Token;
use mc_tree::{AssignmentOperator, BinaryOperator, SpecifierWord, StepOperator, UnaryOperator};
use parse_cursor::cursor::{Cursor, is_keyword, is_punctuator};
use parse_cursor::rule::Level;

/// The operator between two operands that the token is, at this level (C17 6.5.5 to 6.5.14).
fn operator_at(level: Level, token: &Token<'_>) -> Option<BinaryOperator>
    ensures { result ≡ spec.operator_at (level_of level) (lexeme_of (tok_of token.now)) }
{
    match level {
        Level::Product if is_punctuator(token, b"*") => Some(BinaryOperator::Multiply),
        Level::Product if is_punctuator(token, b"/") => Some(BinaryOperator::Divide),
        Level::Product if is_punctuator(token, b"%") => Some(BinaryOperator::Remainder),
        Level::Sum if is_punctuator(token, b"+") => Some(BinaryOperator::Add),
        Level::Sum if is_punctuator(token, b"-") => Some(BinaryOperator::Subtract),
        Level::Shift if is_punctuator(token, b"<<") => Some(BinaryOperator::ShiftLeft),
        Level::Shift if is_punctuator(token, b">>") => Some(BinaryOperator::ShiftRight),
        Level::Relation if is_punctuator(token, b"<") => Some(BinaryOperator::Less),
        Level::Relation if is_punctuator(token, b">") => Some(BinaryOperator::Greater),
        Level::Relation if is_punctuator(token, b"<=") => Some(BinaryOperator::LessOrEqual),
        Level::Relation if is_punctuator(token, b">=") => Some(BinaryOperator::GreaterOrEqual),
        Level::Equality if is_punctuator(token, b"==") => Some(BinaryOperator::Equal),
        Level::Equality if is_punctuator(token, b"!=") => Some(BinaryOperator::Unequal),
        Level::BitAnd if is_punctuator(token, b"&") => Some(BinaryOperator::BitAnd),
        Level::BitXor if is_punctuator(token, b"^") => Some(BinaryOperator::BitXor),
        Level::BitOr if is_punctuator(token, b"|") => Some(BinaryOperator::BitOr),
        Level::And if is_punctuator(token, b"&&") => Some(BinaryOperator::And),
        Level::Or if is_punctuator(token, b"||") => Some(BinaryOperator::Or),
        _ => None,
    }
}

/// The operator that assigns which the token is (C17 6.5.16).
fn assignment_at(token: &Token<'_>) -> Option<AssignmentOperator>
    ensures { result ≡ spec.assignment_at (lexeme_of (tok_of token.now)) }
{
    if is_punctuator(token, b"=") {
        Some(AssignmentOperator::Assign)
    } else if is_punctuator(token, b"*=") {
        Some(AssignmentOperator::Multiply)
    } else if is_punctuator(token, b"/=") {
        Some(AssignmentOperator::Divide)
    } else if is_punctuator(token, b"%=") {
        Some(AssignmentOperator::Remainder)
    } else if is_punctuator(token, b"+=") {
        Some(AssignmentOperator::Add)
    } else if is_punctuator(token, b"-=") {
        Some(AssignmentOperator::Subtract)
    } else if is_punctuator(token, b"<<=") {
        Some(AssignmentOperator::ShiftLeft)
    } else if is_punctuator(token, b">>=") {
        Some(AssignmentOperator::ShiftRight)
    } else if is_punctuator(token, b"&=") {
        Some(AssignmentOperator::BitAnd)
    } else if is_punctuator(token, b"^=") {
        Some(AssignmentOperator::BitXor)
    } else if is_punctuator(token, b"|=") {
        Some(AssignmentOperator::BitOr)
    } else {
        None
    }
}

/// The operator before one operand that the token is (C17 6.5.3).
fn unary_at(token: &Token<'_>) -> Option<UnaryOperator>
    ensures { result ≡ unary_at (lexeme_of (tok_of token.now)) }
{
    if is_punctuator(token, b"+") {
        Some(UnaryOperator::Plus)
    } else if is_punctuator(token, b"-") {
        Some(UnaryOperator::Minus)
    } else if is_punctuator(token, b"~") {
        Some(UnaryOperator::Complement)
    } else if is_punctuator(token, b"!") {
        Some(UnaryOperator::Not)
    } else if is_punctuator(token, b"*") {
        Some(UnaryOperator::Dereference)
    } else if is_punctuator(token, b"&") {
        Some(UnaryOperator::Address)
    } else {
        None
    }
}

/// The keyword that alone is a specifier which the token is (C17 6.7.1 to 6.7.3).
fn word_at(token: &Token<'_>) -> Option<SpecifierWord>
    ensures { result ≡ word_at (lexeme_of (tok_of token.now)) }
{
    if is_keyword(token, b"typedef") {
        Some(SpecifierWord::Typedef)
    } else if is_keyword(token, b"static") {
        Some(SpecifierWord::Static)
    } else if is_keyword(token, b"extern") {
        Some(SpecifierWord::Extern)
    } else if is_keyword(token, b"const") {
        Some(SpecifierWord::Const)
    } else if is_keyword(token, b"void") {
        Some(SpecifierWord::Void)
    } else if is_keyword(token, b"_Bool") {
        Some(SpecifierWord::Bool)
    } else if is_keyword(token, b"char") {
        Some(SpecifierWord::Char)
    } else if is_keyword(token, b"short") {
        Some(SpecifierWord::Short)
    } else if is_keyword(token, b"int") {
        Some(SpecifierWord::Int)
    } else if is_keyword(token, b"long") {
        Some(SpecifierWord::Long)
    } else if is_keyword(token, b"signed") {
        Some(SpecifierWord::Signed)
    } else if is_keyword(token, b"unsigned") {
        Some(SpecifierWord::Unsigned)
    } else {
        None
    }
}

/// The operator between two operands that is next, at this level.
#[inline(never)]
#[tactic(auto, unfolding(parse_cursor::specs::Cursors::marked_all))]
pub fn binary_operator(level: Level, tokens: &Cursor<'_, '_>) -> Option<BinaryOperator>
    ensures { result ≡ spec.operator_next (level_of level) (left_of tokens.now) }
{
    match tokens.rest {
        [] => None,
        [first, ..] => operator_at(level, first),
    }
}

/// The operator that assigns which is next.
#[inline(never)]
#[tactic(auto, unfolding(parse_cursor::specs::Cursors::marked_all))]
pub fn assignment_operator(tokens: &Cursor<'_, '_>) -> Option<AssignmentOperator>
    ensures { result ≡ assignment_next (left_of tokens.now) }
{
    match tokens.rest {
        [] => None,
        [first, ..] => assignment_at(first),
    }
}

/// Which of `++` and `--` is next.
#[inline(never)]
#[tactic(auto, unfolding(parse_cursor::specs::Cursors::marked_all))]
pub fn step_operator(tokens: &Cursor<'_, '_>) -> Option<StepOperator>
    ensures { result ≡ step_next (left_of tokens.now) }
{
    match tokens.rest {
        [first, ..] if is_punctuator(first, b"++") => Some(StepOperator::Increment),
        [first, ..] if is_punctuator(first, b"--") => Some(StepOperator::Decrement),
        _ => None,
    }
}

/// The operator before one operand that is next.
#[inline(never)]
#[tactic(auto, unfolding(parse_cursor::specs::Cursors::marked_all))]
pub fn unary_operator(tokens: &Cursor<'_, '_>) -> Option<UnaryOperator>
    ensures { result ≡ unary_next (left_of tokens.now) }
{
    match tokens.rest {
        [] => None,
        [first, ..] => unary_at(first),
    }
}

/// Whether a suffix is next: `[`, `.`, `++` or `--` (C17 6.5.2).
#[inline(never)]
pub fn sees_suffix(tokens: &Cursor<'_, '_>) -> bool
    ensures { result ≡ next_is spec.is_suffix (left_of tokens.now) }
{
    tokens.sees(b"[") || tokens.sees(b".") || tokens.sees(b"++") || tokens.sees(b"--")
}

/// The keyword that alone is a specifier, where one is next.
#[inline(never)]
#[tactic(auto, unfolding(parse_cursor::specs::Cursors::marked_all))]
pub fn specifier_word(tokens: &Cursor<'_, '_>) -> Option<SpecifierWord>
    ensures { result ≡ word_next (left_of tokens.now) }
{
    match tokens.rest {
        [] => None,
        [first, ..] => word_at(first),
    }
}
