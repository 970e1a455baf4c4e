//! How an expression stands in a program.

/// How an expression stands in what is around it.
#[derive(Clone, Copy, Debug, PartialEq, Eq)]
pub enum Role {
    /// The controlling expression of `if`, `while`, `do` or `for` (C17 6.8.4.1, 6.8.5), or the
    /// first operand of `?:` (C17 6.5.15).
    Controlling,
    /// A node or a condition of the tree of a decision around it.
    Inner,
    /// Any other expression.
    Plain,
}
