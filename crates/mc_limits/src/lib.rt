//! The limits: how much of each a program, a run, a file or a matrix has at most. The cells of an
//! object have their limit beside the types of objects. No call takes memory.
#![tactic(auto)]

mod laws;

pub use laws::limits_are_the_defined_ones;

/// Conditions of a decision.
pub const MOST_CONDITIONS: u32 = 64;

/// Paths of a decision.
pub const MOST_PATHS: u32 = 4_096;

/// Bits of a program: one for each entry, exit, statement and label, and for each path number of
/// each decision.
pub const MOST_BITS: u32 = 65_536;

/// Parameters of a function.
pub const MOST_PARAMETERS: u32 = 16;

/// Arrays and structures inside one another, in the type of an object.
pub const MOST_NESTING: u32 = 200;

/// Cells of an activation: the scalars of its objects.
pub const MOST_FRAME_CELLS: u32 = 65_536;

/// Cells of all objects with static storage duration.
pub const MOST_STATIC_CELLS: u32 = 65_536;

/// Cells of all open activations of a run.
pub const MOST_RUN_CELLS: u32 = 65_536;

/// Levels of all open activations of a run.
pub const MOST_LEVELS: u32 = 512;

/// Numbers that a run gives to its output.
pub const MOST_RUN_OUTPUTS: u32 = 4_096;

/// Tests of a file.
pub const MOST_TESTS: u32 = 4_096;

/// Calls of a test.
pub const MOST_CALLS: u32 = 1_024;

/// Inputs of a test.
pub const MOST_INPUTS: u32 = 4_096;

/// Outputs that a test expects.
pub const MOST_EXPECTED: u32 = 4_096;

/// Units of fuel of a test.
pub const MOST_FUEL: u32 = 100_000_000;

/// Units of fuel of a test, where the command names none.
pub const USUAL_FUEL: u32 = 1_000_000;

/// Bytes of a source.
pub const MOST_SOURCE_BYTES: u32 = 1_048_576;

/// Bytes of a file of tests.
pub const MOST_TESTS_BYTES: u32 = 4_194_304;

/// Bytes of a file of justifications.
pub const MOST_JUSTIFICATION_BYTES: u32 = 1_048_576;

/// Entries of a file of justifications.
pub const MOST_JUSTIFICATIONS: u32 = 4_096;

/// Bytes of a record.
pub const MOST_RECORD_BYTES: u32 = 33_554_432;

/// Functions of a source that the program makes itself.
pub const MOST_FUNCTIONS: u32 = 200;

/// Words, of 64 bits each, of a matrix of coverage.
pub const MOST_WORDS: u64 = 1_048_576;

/// Mutants of a program.
pub const MOST_MUTANTS: u32 = 4_096;

/// Looks at the shared words while the tests run.
pub const MOST_LOOKS: u32 = 100;

/// Levels of a tree that is read from a source.
pub const MOST_HEIGHT: u32 = 200;

/// Levels of a tree that is read from an instrumented text, whose probes bring brackets.
pub const MOST_INSTRUMENTED_HEIGHT: u32 = 800;

/// Workers that share a matrix of coverage.
pub const MOST_WORKERS: u32 = 64;
