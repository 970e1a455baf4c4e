//! Why a test cannot go on.
use std::alloc::{AllocError, AllocFailed};

/// Memory ran out, or a text of the tests is not what it has to be.
#[derive(Debug, Drop)]
pub struct Fail;

impl From<AllocError> for Fail {
    fn from(_error: AllocError) -> Fail {
        Fail
    }
}

impl<T: Drop> From<AllocFailed<T>> for Fail {
    fn from(_error: AllocFailed<T>) -> Fail {
        Fail
    }
}
