//! What a token is, and its kinds (C17 6.4).

/// The words that a source may use.
#[derive(Clone, Copy, Debug, PartialEq, Eq)]
pub enum Dialect {
    /// C as the user writes it: the names of the probes are outside words.
    Plain,
    /// C with its probes: their names are words of their own, and no name is reserved.
    Instrumented,
}

/// What a token is (C17 6.4).
#[derive(Clone, Copy, Debug, PartialEq, Eq)]
pub enum TokenKind {
    Identifier,
    Keyword,
    Punctuator,
    /// An integer constant: its value, whether it is written in decimal (a lone `0` is octal),
    /// whether its suffix has a `u`, and how many `l` its suffix has.
    Constant {
        value: u64,
        decimal: bool,
        unsigned: bool,
        longs: u32,
    },
    /// A character constant, whose value is that of its one byte as a signed `char`.
    Character {
        value: i32,
    },
}

/// A token of a source: its text is the slice of the source that starts at byte `start`.
#[derive(Clone, Copy, Debug)]
pub struct Token<'a> {
    pub kind: TokenKind,
    pub text: &'a [u8],
    pub start: u32,
}
