//! Why a phase gives nothing.

use crate::refusal::Refusal;
use std::alloc::AllocError;

/// Why a phase gives nothing.
#[derive(Drop)]
pub enum Stop<'a> {
    /// It refuses its file.
    Refused(Refusal<'a>),
    /// It is out of memory.
    OutOfMemory,
}

ghost use Rattle.station_replies.specs.declared.stop.Stop.TheVariants as stop;

impl From<AllocError> for Stop<'_> {
    ghost use Rattle.std.specs.Prelude.{◌≡◌};

    ghost from_gives = { λ _ e. e ≡ stop.OutOfMemory };

    fn from(_error: AllocError) -> Self {
        Stop::OutOfMemory
    }
}
