//! Why nothing is read.
ghost use Rattle.parse_cursor.specs.declared.fault.Fault.TheVariants as fault;

use std::alloc::{AllocError, AllocFailed};

/// Why a function of the descent gives no tree. Where it is the syntax, the next token of the
/// cursor is the first at which no reading goes on.
#[derive(Drop)]
pub enum Fault {
    Syntax,
    OutOfMemory,
}

impl From<AllocError> for Fault {
    ghost use Rattle.std.specs.Prelude.{◌≡◌};

    ghost from_gives = { λ _ e. e ≡ fault.OutOfMemory };

    fn from(_error: AllocError) -> Fault {
        Fault::OutOfMemory
    }
}

impl<T: Drop> From<AllocFailed<T>> for Fault {
    ghost use Rattle.std.specs.Prelude.{◌≡◌};

    ghost from_gives = { λ _ e. e ≡ fault.OutOfMemory };

    fn from(_error: AllocFailed<T>) -> Fault {
        Fault::OutOfMemory
    }
}
