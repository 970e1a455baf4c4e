//! The operators of C that act on numbers.

/// An operator on two operands of one type, their common type.
#[derive(Clone, Copy, Debug, PartialEq, Eq)]
pub enum BinOp {
    /// `*` of C17 6.5.5.
    Mul,
    /// `/` of C17 6.5.5.
    Div,
    /// `%` of C17 6.5.5.
    Rem,
    /// `+` of C17 6.5.6.
    Add,
    /// `-` of C17 6.5.6.
    Sub,
    /// `<` of C17 6.5.8.
    Lt,
    /// `>` of C17 6.5.8.
    Gt,
    /// `<=` of C17 6.5.8.
    Le,
    /// `>=` of C17 6.5.8.
    Ge,
    /// `==` of C17 6.5.9.
    Eq,
    /// `!=` of C17 6.5.9.
    Ne,
    /// `&` of C17 6.5.10.
    And,
    /// `^` of C17 6.5.11.
    Xor,
    /// `|` of C17 6.5.12.
    Or,
}

/// A shift of C17 6.5.7. Its operands are promoted each by itself, and the left one gives the
/// result's type.
#[derive(Clone, Copy, Debug, PartialEq, Eq)]
pub enum ShiftOp {
    /// `<<`.
    Left,
    /// `>>`, which is arithmetic on a negative number.
    Right,
}

/// An operator on one operand (C17 6.5.3.3).
#[derive(Clone, Copy, Debug, PartialEq, Eq)]
pub enum UnOp {
    /// `+`.
    Plus,
    /// `-`.
    Minus,
    /// `~`.
    Flip,
    /// `!`.
    Not,
}
