//! Places of a tree at which the table puts probes.

/// A place of a tree at which the table puts a row, by the byte where what stands there starts or
/// ends.
#[derive(Clone, Copy, Debug, PartialEq, Eq)]
pub enum Spot {
    /// At the front of the body of a function that ends there.
    Registers { end: u32 },
    /// The same, after the registers.
    Entry { end: u32 },
    /// At the end of that body.
    Exit { end: u32 },
    /// Before a counted declaration.
    Declaration { start: u32 },
    /// After a label of a `switch`.
    Label { end: u32 },
    /// After a `switch` without `default`.
    Default { end: u32 },
    /// Before a counted statement.
    Statement { start: u32 },
    /// In place of the word of a `return` with a value.
    Value { start: u32 },
    /// In place of the `;` of that `return`.
    ValueEnd,
    /// Before a `return` without a value.
    Return { start: u32 },
    /// Round an expression. Only one that is no assignment and no comma expression may be a
    /// decision or a condition.
    Operand { start: u32, is_cond: bool },
}
