//! What is kept.

use mc_core::Matrix;
use mc_typed::{Name, TestState};

/// What is kept of the run of some tests.
#[derive(Drop)]
pub struct Record {
    /// The SHA-256 of the source.
    pub digest: [u8; 32],
    /// The tests, in order.
    pub names: Vec<Name>,
    /// How each ended.
    pub states: Vec<TestState>,
    /// Which bits of the program were hit under which test.
    pub matrix: Matrix,
}
