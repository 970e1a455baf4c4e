//! Why a run cannot go on.

/// What stops a run: an operation whose behaviour C leaves undefined, or that no input is left.
#[derive(Clone, Copy, Debug, PartialEq, Eq)]
pub enum Trap {
    /// A result of a signed type is out of the type's range (C17 6.5p5).
    Overflow,
    /// The divisor of `/` or `%` is 0 (C17 6.5.5p5).
    Division,
    /// The amount of a shift is negative or not below the width, or a left shift of a signed type
    /// has a negative value or a result that the type cannot hold (C17 6.5.7).
    Shift,
    /// An index is negative or not below the array's length (C17 6.5.6p8).
    Index,
    /// A scalar is read before it has a value (C17 6.3.2.1p2).
    Unset,
    /// The value of a call is used whose function ended without a `return` (C17 6.9.1p12).
    NoReturn,
    /// The test has no next input.
    InputEnd,
}
