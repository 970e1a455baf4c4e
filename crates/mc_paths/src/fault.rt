//! Why a decision has no numbering.

use thiserror::Error;

/// A decision with too many paths, or memory has run out.
#[derive(Clone, Copy, Debug, Drop, PartialEq, Eq, Error)]
pub enum NumberFault {
    /// The decision's path numbers take up `count`, more than 4,096.
    #[error("too many paths {count}")]
    TooManyPaths { count: u128 },
    /// Memory has run out.
    #[error("out of memory")]
    OutOfMemory,
}
