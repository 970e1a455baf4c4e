//! Why a program is not instrumented.
use std::alloc::AllocError;
use thiserror::Error;

/// A program has too many paths in a decision or too many bits, or memory has run out.
#[derive(Clone, Copy, Debug, Drop, PartialEq, Eq, Error)]
pub enum InstrumentFault {
    /// The decision whose root begins at byte `at` has `count` paths, more than 4,096, and no
    /// decision before it has too many.
    #[error("too many paths {count}")]
    TooManyPaths { at: u32, count: u128 },
    /// The program has `count` bits, more than 65,536. A greater count than 2^64 - 1 is given as
    /// that.
    #[error("too many bits {count}")]
    TooManyBits { count: u64 },
    /// Memory has run out.
    #[error("out of memory")]
    OutOfMemory,
}

impl From<AllocError> for InstrumentFault {
    ghost use Rattle.std.specs.Prelude.{◌≡◌};
    ghost use Rattle.instrument_bits.specs.declared.fault.InstrumentFault.TheVariants.{OutOfMemory};

    ghost from_gives = { λ _ e. e ≡ OutOfMemory };

    fn from(_error: AllocError) -> InstrumentFault {
        InstrumentFault::OutOfMemory
    }
}
