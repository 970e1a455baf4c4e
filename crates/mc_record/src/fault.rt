//! Why a text is no record.

use std::alloc::{AllocError, AllocFailed};
use thiserror::Error;

/// The first fault of a text, in the line `line`, counted from 1, or that memory ran out. In a line
/// with several faults the one that stands first here answers.
#[derive(Clone, Copy, Debug, PartialEq, Eq, Error)]
pub enum RecordFault {
    /// Line 1 is of no version, or line 2 is not `source ` and the 64 digits of a digest.
    #[error("record line {line}: header")]
    Header {
        line: u32,
    },
    /// The digest is not that of the source.
    #[error("record line {line}: source")]
    Source {
        line: u32,
        /// The digest in the record.
        kept: [u8; 32],
        /// The digest of the source.
        given: [u8; 32],
    },
    /// Line 3 is not `bits ` and the number of the program's bits, or line 4 is not `tests ` and a
    /// number, or there are more than `MOST_TESTS` tests or `MOST_WORDS` words.
    #[error("record line {line}: shape")]
    Shape {
        line: u32,
    },
    /// The line of a test or of a bit has another form, a wrong number or a wrong state.
    #[error("record line {line}: word")]
    Word {
        line: u32,
    },
    /// The name of an earlier test comes again.
    #[error("record line {line}: name again")]
    NameAgain {
        line: u32,
    },
    /// A bit is set at or above the number of tests.
    #[error("record line {line}: spare bit")]
    SpareBit {
        line: u32,
    },
    /// The last line is not `end`, or bytes follow it.
    #[error("record line {line}: ending")]
    Ending {
        line: u32,
    },
    /// The record is of version 1, where its rules are not those of this source.
    #[error("record line {line}: old rules")]
    OldRules {
        line: u32,
    },
    /// Memory ran out.
    #[error("out of memory")]
    OutOfMemory,
}

impl From<AllocError> for RecordFault {
    ghost use Rattle.std.specs.Prelude.{◌≡◌};
    ghost use Rattle.mc_record.specs.declared.fault.RecordFault.TheVariants.{OutOfMemory};

    ghost from_gives = { λ _ e. e ≡ OutOfMemory };

    fn from(_error: AllocError) -> RecordFault {
        RecordFault::OutOfMemory
    }
}

impl<T: Drop> From<AllocFailed<T>> for RecordFault {
    ghost use Rattle.std.specs.Prelude.{◌≡◌};
    ghost use Rattle.mc_record.specs.declared.fault.RecordFault.TheVariants.{OutOfMemory};

    ghost from_gives = { λ _ e. e ≡ OutOfMemory };

    fn from(_error: AllocFailed<T>) -> RecordFault {
        RecordFault::OutOfMemory
    }
}
