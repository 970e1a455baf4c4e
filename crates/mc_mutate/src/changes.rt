//! What is changed in a mutant.

/// How a mutant differs from the program.
#[derive(Clone, Copy, Debug, PartialEq, Eq)]
pub enum MutantKind {
    /// `&&` and `||` are exchanged.
    Exchanged,
    /// A condition c is `!c`.
    Negated,
    /// A condition c is `c || 1`.
    FixedTrue,
    /// A condition c is `c && 0`.
    FixedFalse,
    /// The relational or equality operator of a condition: `<` and `<=`, `>` and `>=`, or `==` and
    /// `!=` are exchanged.
    Shifted,
}

/// The one change that makes a mutant of a program.
#[derive(Clone, Copy, Debug, PartialEq, Eq)]
pub struct Change {
    pub kind: MutantKind,
    /// The byte at which the node or the condition begins that is changed.
    pub at: u32,
}
