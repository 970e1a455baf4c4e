//! Why a list of tokens has no tree.
use thiserror::Error;

/// Why a token list has no tree.
#[derive(Clone, Copy, Debug, PartialEq, Eq, Error)]
pub enum ParseFault {
    /// The tokens are not a unit whose height is within the limit. `at` is the number of tokens
    /// before the one at which the reading stopped.
    #[error("syntax")]
    Syntax { at: u32 },
    #[error("out of memory")]
    OutOfMemory,
}
