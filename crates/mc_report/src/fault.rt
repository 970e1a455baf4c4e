//! Why a report was not written.

use thiserror::Error;

/// Why a report was not written whole.
#[derive(Clone, Copy, Debug, PartialEq, Eq, Error)]
pub enum ReportFault {
    /// A line cannot be put. The sink's count of faults rose in the call.
    #[error("the report cannot be written")]
    Put,
    /// Want of memory. Nothing was written.
    #[error("out of memory")]
    OutOfMemory,
}
