//! What the last stage of a command stands on.

use crate::opened::Opened;
use decide_rules::Decision;
use mc_command::{Judging, MatrixTask};
use mc_record::Record;
use mc_typed::TestPlan;

/// What the last stage of a command stands on, beside its source. A number of workers stands before
/// the tests that they share.
#[derive(Drop)]
pub enum Basis<'a> {
    /// What is told of the matrix of the tests, and the shared words that they record in.
    Tested(MatrixTask<'a>, u32, Vec<TestPlan>, Opened),
    /// How often the shared words are looked at while the tests run.
    Watched(u32, u32, Vec<TestPlan>, Opened),
    /// The decisions on whose mutants the tests are tried.
    Mutated(u32, Vec<TestPlan>, Vec<Decision>),
    /// Nothing more: it is told what the calls of the tests did.
    Traced(u32, Vec<TestPlan>),
    /// A record, and how the obligations are judged by it.
    Recorded(Judging<'a>, Record),
}
