//! What is known of a vector that is wanted.

/// A vector that no test evaluates and that stands on the list of wanted ones.
#[derive(Clone, Copy, Debug, PartialEq, Eq)]
pub struct Wanted {
    /// The number of its decision, and that of its path in the decision.
    pub decision: u32,
    pub path: u32,
    /// The condition that it was put on the list for; none where it was put there for an outcome.
    pub condition: Option<u32>,
    /// The missing outcome of its decision that it is the first on the list to have, if any.
    pub outcome: Option<bool>,
}
