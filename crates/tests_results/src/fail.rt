//! Why a test cannot go on.
use std::alloc::{AllocError, AllocFailed};

/// A source has no program, its tests cannot be read, or memory ran out.
#[derive(Debug, Drop)]
pub struct Fail;

impl From<AllocError> for Fail {
    fn from(_error: AllocError) -> Fail {
        Fail
    }
}

impl<T: Drop> From<AllocFailed<T>> for Fail {
    fn from(_error: AllocFailed<T>) -> Fail {
        Fail
    }
}
