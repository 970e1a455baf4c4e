//! Why a text has no pieces.

use std::alloc::{AllocError, AllocFailed};
use thiserror::Error;

/// Why a text has no pieces.
#[derive(Clone, Copy, Debug, PartialEq, Eq, Error)]
pub enum ShapeFault {
    /// At the token with this number, or at the end, no row of the table and no token of the source
    /// can stand.
    #[error("no shape at token {at}")]
    Shape { at: u32 },
    #[error("out of memory")]
    OutOfMemory,
}

impl From<AllocError> for ShapeFault {
    ghost use Rattle.std.specs.Prelude.{◌≡◌};
    ghost use Rattle.reread_pieces.specs.declared.fault.ShapeFault.TheVariants.{OutOfMemory};

    ghost from_gives = { λ _ e. e ≡ OutOfMemory };

    fn from(_error: AllocError) -> ShapeFault {
        ShapeFault::OutOfMemory
    }
}

impl<T: Drop> From<AllocFailed<T>> for ShapeFault {
    ghost use Rattle.std.specs.Prelude.{◌≡◌};
    ghost use Rattle.reread_pieces.specs.declared.fault.ShapeFault.TheVariants.{OutOfMemory};

    ghost from_gives = { λ _ e. e ≡ OutOfMemory };

    fn from(_error: AllocFailed<T>) -> ShapeFault {
        ShapeFault::OutOfMemory
    }
}
