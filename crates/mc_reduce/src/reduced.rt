//! A reduced suite.

/// The tests that are kept, in ascending order, and for each of them the first obligation that is
/// lost without it, by its position in the list of obligations.
#[derive(Drop)]
pub struct Reduced {
    pub kept: Vec<u32>,
    pub lost: Vec<u32>,
}
