//! What becomes of a piece.

/// Why a piece is outside the language.
#[derive(Clone, Copy, Debug, PartialEq, Eq)]
pub enum Reason {
    /// A word or a punctuator.
    Word,
    /// An attribute that means something.
    Attribute,
    Pointer,
    /// A string.
    Text,
    /// A floating constant.
    Floating,
    /// A comment that is not closed.
    OpenComment,
    /// A character constant or a string that is not closed on its line.
    OpenText,
    /// A line that begins with `#` and is no line marker, `#pragma` or `#line`.
    Directive,
    /// A byte that begins nothing.
    Byte,
    /// What stands after `register` or `auto` is no type.
    NoType,
    /// What stands where an attribute or an assertion has its bracket or its `;`.
    Bracket,
}

ghost use Rattle.std.specs.Prelude.{◌≡◌};
ghost use Rattle.mc_adapt.specs.Reasons as reasons;

impl Reason {
    /// What the reason is called.
    pub fn words(self) -> &'static str
        ensures { result.now ≡ reasons.reason_words self }
    {
        match self {
            Reason::Word => "outside word",
            Reason::Attribute => "attribute",
            Reason::Pointer => "pointer",
            Reason::Text => "string",
            Reason::Floating => "floating constant",
            Reason::OpenComment => "open comment",
            Reason::OpenText => "open string",
            Reason::Directive => "directive",
            Reason::Byte => "byte",
            Reason::NoType => "no type",
            Reason::Bracket => "bracket",
        }
    }

    /// Whether the bytes of the piece stand after the words.
    pub fn shows_text(self) -> bool
        ensures { result ≡ reasons.shows_text self }
    {
        match self {
            Reason::Word | Reason::Attribute => true,
            _ => false,
        }
    }
}

/// What becomes of a piece.
#[derive(Clone, Copy, Debug, PartialEq, Eq)]
pub(crate) enum Mark {
    Stays,
    Goes,
    Outside(Reason),
}
