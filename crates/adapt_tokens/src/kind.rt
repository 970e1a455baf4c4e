//! What a piece of a text is.

/// What a piece of a text is (C17 6.4).
#[derive(Clone, Copy, Debug, PartialEq, Eq)]
pub enum Kind {
    /// One byte of white space.
    White,
    /// A comment that is closed, or one to the end of its line.
    Comment,
    /// A line that begins with `#` and a number, as compilers write it.
    Marker,
    /// A line that begins with `#pragma`.
    Pragma,
    /// A line that begins with `#line` and a number.
    Line,
    /// Letters, digits and `_`, not a digit first: a name or a keyword.
    Word,
    /// A number, integer or floating, well formed or not.
    Number,
    /// A character constant, of any number of characters.
    Character,
    /// A string.
    Text,
    Punctuator,
    /// A comment that is not closed.
    OpenComment,
    /// A character constant or a string that is not closed on its line.
    OpenText,
    /// A line that begins with `#` and is of no other kind.
    Directive,
    /// A byte that begins nothing.
    Byte,
}
