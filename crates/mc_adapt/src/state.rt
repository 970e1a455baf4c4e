//! What stands before a piece.

/// Where a piece stands.
#[derive(Clone, Copy, Debug, PartialEq, Eq)]
pub(crate) enum Around {
    /// Outside attributes and assertions.
    Plain,
    Attribute,
    Assertion,
    /// After the brackets of an assertion.
    Ending,
}

/// The last token that stays, or `register` or `auto`.
#[derive(Clone, Copy, Debug, PartialEq, Eq)]
pub(crate) enum Last {
    Start,
    Name,
    Keyword,
    /// `register` or `auto`.
    Storage,
    /// A name after `register` or `auto`.
    StoredName,
    Operand,
    Other,
}

/// What stands before a piece, as far as a rule asks for it.
#[derive(Clone, Copy, Debug, PartialEq, Eq)]
pub(crate) struct State {
    pub(crate) around: Around,
    /// How many brackets of the attribute or the assertion are open.
    pub(crate) depth: u32,
    /// `static` was among the words since the last `;`, `{` or `}`.
    pub(crate) has_static: bool,
    pub(crate) last: Last,
}
