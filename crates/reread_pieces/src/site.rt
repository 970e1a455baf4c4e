//! What of a place decides which row of the table may stand there.

use crate::bracket::Bracket;

/// What stands directly before a place.
#[derive(Clone, Copy, Debug, PartialEq, Eq)]
pub enum Before {
    /// The `{` of a function's body.
    Front,
    /// The registers of a function.
    Registers,
    /// What begins a counted statement: its `{` and its probe.
    Statement,
    /// `:`
    Colon,
    /// `)`
    Parenthesis,
    /// An identifier, or `if`, `switch`, `while` or `for`: a `(` after it begins no expression in
    /// parentheses.
    Name,
    /// Anything else.
    Other,
}

/// A place of a text.
#[derive(Clone, Copy, Debug)]
pub struct Site {
    /// The innermost of what is open.
    pub innermost: Option<Bracket>,
    /// Whether it is inside a function's body.
    pub inside: bool,
    pub before: Before,
}
