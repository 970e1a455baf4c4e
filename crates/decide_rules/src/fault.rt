//! Why a program's decisions are refused.
use std::alloc::AllocError;
use thiserror::Error;

/// A decision has too many conditions, or memory has run out.
#[derive(Clone, Copy, Debug, Drop, PartialEq, Eq, Error)]
pub enum DecideFault {
    /// The decision whose root begins at byte `at` has `count` conditions, more than 64. A greater
    /// count than 2^32 - 1 is given as that.
    #[error("too many conditions {count}")]
    TooManyConditions { at: u32, count: u32 },
    /// Memory has run out.
    #[error("out of memory")]
    OutOfMemory,
}

impl From<AllocError> for DecideFault {
    ghost use Rattle.std.specs.Prelude.{◌≡◌};
    ghost use Rattle.decide_rules.specs.declared.fault.DecideFault.TheVariants.{OutOfMemory};

    ghost from_gives = { λ _ e. e ≡ OutOfMemory };

    fn from(_error: AllocError) -> DecideFault {
        DecideFault::OutOfMemory
    }
}
