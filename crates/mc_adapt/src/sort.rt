//! What `adapt` has to know of a piece by itself.

/// What a piece is, as far as a rule asks for it.
#[derive(Clone, Copy, Debug, PartialEq, Eq)]
pub(crate) enum Sort {
    /// What stands between tokens.
    Gap,
    /// A word that is in no list.
    Name,
    /// A keyword of the language, but `static`.
    Keyword,
    Static,
    Inline,
    /// `register` or `auto`.
    Storage,
    /// A word that says nothing of a value.
    Silent,
    /// The word before an attribute.
    Attribute,
    /// The word before an assertion.
    Assertion,
    /// A word or a punctuator that is outside the language.
    OutsideWord,
    /// `(`
    Opens,
    /// `)`
    Closes,
    /// `{`
    Begins,
    /// `}`
    Ends,
    Semicolon,
    /// `*` or `&`
    Operator,
    /// A number, a character constant or `]`.
    Operand,
    /// `++` or `--`
    Step,
    Text,
    Floating,
    OpenComment,
    OpenText,
    Directive,
    Byte,
    Other,
}
