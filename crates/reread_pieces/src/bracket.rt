//! What is open at a place of a text.

/// A bracket of the source, or what a probe has opened.
#[derive(Clone, Copy, Debug, PartialEq, Eq)]
pub enum Bracket {
    /// `(`
    Parenthesis,
    /// `[`
    Square,
    /// `{`, but not that of a function's body
    Brace,
    /// The `{` of a function's body.
    Body,
    /// The `{` of a counted statement.
    Statement,
    /// The `{` of a `return` with a value, up to the `;` after the value.
    Value,
    /// The `{` of a `return` without a value.
    Exit,
    /// The `(` of a probe round an expression.
    Operand,
}
