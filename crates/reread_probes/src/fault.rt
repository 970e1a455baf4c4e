//! Why the probes of a text are not placed.

use std::alloc::{AllocError, AllocFailed};
use thiserror::Error;

/// Why the probes of a text are not placed.
#[derive(Clone, Copy, Debug, PartialEq, Eq, Error)]
pub enum PlaceFault {
    /// A probe stands where the table puts no such one.
    #[error("a probe stands where no such probe can stand")]
    NoShape,
    #[error("out of memory")]
    OutOfMemory,
}

impl From<AllocError> for PlaceFault {
    ghost use Rattle.std.specs.Prelude.{◌≡◌};
    ghost use Rattle.reread_probes.specs.declared.fault.PlaceFault.TheVariants.{OutOfMemory};

    ghost from_gives = { λ _ e. e ≡ OutOfMemory };

    fn from(_error: AllocError) -> PlaceFault {
        PlaceFault::OutOfMemory
    }
}

impl<T: Drop> From<AllocFailed<T>> for PlaceFault {
    ghost use Rattle.std.specs.Prelude.{◌≡◌};
    ghost use Rattle.reread_probes.specs.declared.fault.PlaceFault.TheVariants.{OutOfMemory};

    ghost from_gives = { λ _ e. e ≡ OutOfMemory };

    fn from(_error: AllocFailed<T>) -> PlaceFault {
        PlaceFault::OutOfMemory
    }
}
