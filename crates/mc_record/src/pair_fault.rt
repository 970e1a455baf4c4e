//! Why two records are not merged.

use std::alloc::{AllocError, AllocFailed};
use thiserror::Error;

/// Why two records have no common one. Of several causes the one that stands first here answers.
#[derive(Clone, Copy, Debug, PartialEq, Eq, Error)]
pub enum PairFault {
    /// The test with the number `right` in the right record has the name of the test with the
    /// number `left` in the left one, each counted from 0. It is the first such test on the right.
    #[error("tests {left} and {right} have one name")]
    SameTest { left: u32, right: u32 },
    /// Together there are more than `MOST_TESTS` tests; this many.
    #[error("{tests} tests")]
    Limit { tests: u32 },
    /// The matrix would need more than 1,048,576 words; this many.
    #[error("matrix needs {words} words")]
    TooLarge { words: u64 },
    /// Memory ran out.
    #[error("out of memory")]
    OutOfMemory,
}

impl From<AllocError> for PairFault {
    ghost use Rattle.std.specs.Prelude.{◌≡◌};
    ghost use Rattle.mc_record.specs.declared.pair_fault.PairFault.TheVariants.{OutOfMemory};

    ghost from_gives = { λ _ e. e ≡ OutOfMemory };

    fn from(_error: AllocError) -> PairFault {
        PairFault::OutOfMemory
    }
}

impl<T: Drop> From<AllocFailed<T>> for PairFault {
    ghost use Rattle.std.specs.Prelude.{◌≡◌};
    ghost use Rattle.mc_record.specs.declared.pair_fault.PairFault.TheVariants.{OutOfMemory};

    ghost from_gives = { λ _ e. e ≡ OutOfMemory };

    fn from(_error: AllocFailed<T>) -> PairFault {
        PairFault::OutOfMemory
    }
}
