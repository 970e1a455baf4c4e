//! What begins a statement that is not a block (C17 6.8).
ghost use Rattle.std.specs.Prelude.{◌≡◌};
ghost use Rattle.parse_cursor.specs.Cursors.{left_of};
ghost use Rattle.mc_parse.specs.steps.Beginnings as spec;

use parse_cursor::cursor::Cursor;

/// A statement that has no statement as a part.
#[derive(Clone, Copy)]
pub enum Whole {
    Null,
    Goto,
    Continue,
    Break,
    Return,
    Expression,
}

/// A statement that ends with the one statement that is its part.
#[derive(Clone, Copy)]
pub enum Opener {
    Label,
    Case,
    Default,
    Switch,
    While,
    For,
}

/// What the next tokens begin.
#[derive(Clone, Copy)]
pub enum Beginning {
    Whole { kind: Whole },
    /// An `if`, which may have two statements as its parts.
    If,
    /// A `do`, which has its test after its part.
    Do,
    Part { opener: Opener },
}

/// The jump that a keyword begins (C17 6.8.6), or an expression statement.
fn jump(tokens: &Cursor<'_, '_>) -> Whole
    ensures { result ≡ spec.jump_begins (left_of tokens.now) }
{
    if tokens.sees_keyword(b"goto") {
        Whole::Goto
    } else if tokens.sees_keyword(b"continue") {
        Whole::Continue
    } else if tokens.sees_keyword(b"break") {
        Whole::Break
    } else if tokens.sees_keyword(b"return") {
        Whole::Return
    } else {
        Whole::Expression
    }
}

/// What the keyword of a label begins (C17 6.8.1), or what is no loop and no choice.
fn marked(tokens: &Cursor<'_, '_>) -> Beginning
    ensures { result ≡ spec.mark_begins (left_of tokens.now) }
{
    if tokens.sees_keyword(b"case") {
        Beginning::Part {
            opener: Opener::Case,
        }
    } else if tokens.sees_keyword(b"default") {
        Beginning::Part {
            opener: Opener::Default,
        }
    } else {
        Beginning::Whole { kind: jump(tokens) }
    }
}

/// What a keyword begins, or an expression statement.
fn by_keyword(tokens: &Cursor<'_, '_>) -> Beginning
    ensures { result ≡ spec.keyword_begins (left_of tokens.now) }
{
    if tokens.sees_keyword(b"if") {
        Beginning::If
    } else if tokens.sees_keyword(b"switch") {
        Beginning::Part {
            opener: Opener::Switch,
        }
    } else if tokens.sees_keyword(b"while") {
        Beginning::Part {
            opener: Opener::While,
        }
    } else if tokens.sees_keyword(b"do") {
        Beginning::Do
    } else if tokens.sees_keyword(b"for") {
        Beginning::Part {
            opener: Opener::For,
        }
    } else {
        marked(tokens)
    }
}

/// What the next tokens begin, where they begin no block.
#[inline(never)]
#[tactic(auto, unfolding(crate::specs::steps::Beginnings::begins))]
pub fn next_begins(tokens: &Cursor<'_, '_>) -> Beginning
    ensures { result ≡ spec.begins (left_of tokens.now) }
{
    if tokens.sees(b";") {
        Beginning::Whole { kind: Whole::Null }
    } else if tokens.sees_label() {
        Beginning::Part {
            opener: Opener::Label,
        }
    } else {
        by_keyword(tokens)
    }
}
