//! What one obligation needs.

/// What a missing obligation of a decision needs, by the numbers of paths of that decision.
#[derive(Clone, Copy, Debug, PartialEq, Eq)]
pub enum Need {
    /// A vector with the outcome: the least.
    Vector { path: u32 },
    /// One vector that makes a pair with an evaluated one, the partner, and the least test that
    /// evaluates the partner.
    Beside { path: u32, partner: u32, test: u32 },
    /// Two vectors, which are a pair.
    Both { first: u32, second: u32 },
}
