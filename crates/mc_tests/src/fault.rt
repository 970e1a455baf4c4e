//! Why a tests file stands for no plans.

use std::alloc::{AllocError, AllocFailed};
use thiserror::Error;

/// The first fault of a tests file, in the record `row`, counted from 1, or that memory ran out. In
/// a record with several faults the one that stands first here answers.
#[derive(Clone, Copy, Debug, PartialEq, Eq, Error)]
pub enum TestFault {
    /// Record 1 is absent or differs from the header.
    #[error("tests record {row}: header")]
    Header { row: u32 },
    /// There are not six fields.
    #[error("tests record {row}: width")]
    Width { row: u32 },
    /// A byte outside 32 to 126 stands in a field, or the first field is no test name.
    #[error("tests record {row}: text")]
    Text { row: u32 },
    /// A field of numbers is none, or an input or output is outside the range of `int`.
    #[error("tests record {row}: number")]
    Number { row: u32 },
    /// No function with a body has that name.
    #[error("tests record {row}: function")]
    Function { row: u32 },
    /// There are not as many arguments as integer parameters, one is outside its parameter's type,
    /// or a value is expected of a function that returns none.
    #[error("tests record {row}: arguments")]
    Arguments { row: u32 },
    /// The function has an array or structure parameter, or returns a structure.
    #[error("tests record {row}: not callable")]
    NotCallable { row: u32 },
    /// The name of an earlier test comes again after another test.
    #[error("tests record {row}: name again")]
    NameAgain { row: u32 },
    /// With this record there are more than 4,096 tests, or its test has more than 1,024 calls,
    /// 4,096 inputs or 4,096 expected outputs.
    #[error("tests record {row}: limit")]
    Limit { row: u32 },
    /// Memory ran out.
    #[error("out of memory")]
    OutOfMemory,
}

impl From<AllocError> for TestFault {
    ghost use Rattle.std.specs.Prelude.{◌≡◌};
    ghost use Rattle.mc_tests.specs.declared.fault.TestFault.TheVariants.{OutOfMemory};

    ghost from_gives = { λ _ e. e ≡ OutOfMemory };

    fn from(_error: AllocError) -> TestFault {
        TestFault::OutOfMemory
    }
}

impl<T: Drop> From<AllocFailed<T>> for TestFault {
    ghost use Rattle.std.specs.Prelude.{◌≡◌};
    ghost use Rattle.mc_tests.specs.declared.fault.TestFault.TheVariants.{OutOfMemory};

    ghost from_gives = { λ _ e. e ≡ OutOfMemory };

    fn from(_error: AllocFailed<T>) -> TestFault {
        TestFault::OutOfMemory
    }
}
