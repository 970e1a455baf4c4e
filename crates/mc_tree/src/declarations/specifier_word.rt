//! Keywords among declaration specifiers.

/// A keyword that is a whole specifier (C17 6.7.1 to 6.7.3).
#[derive(Clone, Copy, Debug, PartialEq, Eq)]
pub enum SpecifierWord {
    Typedef,
    Static,
    Extern,
    Const,
    Void,
    Bool,
    Char,
    Short,
    Int,
    Long,
    Signed,
    Unsigned,
}
