//! The two kinds of independence.

/// What shows that a condition independently affects its decision's outcome.
#[derive(Clone, Copy, Debug, PartialEq, Eq)]
pub enum Mode {
    /// Two evaluations with different outcomes and completions that differ in this condition alone.
    Unique,
    /// Two evaluations with different outcomes, and completions in which this condition has
    /// different values and changes the outcome when it alone is flipped.
    Masking,
}
