//! Why the probes of a text are not those of its program.

use std::alloc::{AllocError, AllocFailed};
use thiserror::Error;

/// Why the probes of a text are not those of its program.
#[derive(Clone, Copy, Debug, PartialEq, Eq, Error)]
pub enum BackFault {
    /// Here starts the word of the first probe in the text with a fault: it stands where none can
    /// stand, its register is not one of its function, or it names or reaches too high a bit.
    #[error("probe at byte {at}")]
    Probe { at: u32 },
    #[error("out of memory")]
    OutOfMemory,
}

impl From<AllocError> for BackFault {
    ghost use Rattle.std.specs.Prelude.{◌≡◌};
    ghost use Rattle.reread_put_back.specs.declared.fault.BackFault.TheVariants.{OutOfMemory};

    ghost from_gives = { λ _ e. e ≡ OutOfMemory };

    fn from(_error: AllocError) -> BackFault {
        BackFault::OutOfMemory
    }
}

impl<T: Drop> From<AllocFailed<T>> for BackFault {
    ghost use Rattle.std.specs.Prelude.{◌≡◌};
    ghost use Rattle.reread_put_back.specs.declared.fault.BackFault.TheVariants.{OutOfMemory};

    ghost from_gives = { λ _ e. e ≡ OutOfMemory };

    fn from(_error: AllocFailed<T>) -> BackFault {
        BackFault::OutOfMemory
    }
}
