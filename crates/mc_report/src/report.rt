//! What a report is made from.
use mc_meaning::TestResult;
use mc_oblige::{Mode, Obligation, Verdict};
use mc_probe::BitMap;
use mc_typed::{Name, TestState};

/// What a report is made from.
#[derive(Drop)]
pub struct Report<'a> {
    /// The source, and its SHA-256 digest.
    pub source: &'a [u8],
    pub digest: [u8; 32],
    /// The kind of independence that the verdicts on conditions are by.
    pub mode: Mode,
    /// The tests in the order of the file: their names, their states and, where they were run and
    /// not read from a record, their results.
    pub names: Vec<Name>,
    pub states: Vec<TestState>,
    pub results: Option<Vec<TestResult>>,
    /// The map of the program, its obligations, and the verdict on each of them.
    pub map: BitMap,
    pub obligations: Vec<Obligation>,
    pub verdicts: Vec<Verdict>,
}
