//! Looks at the shared words of a matrix while workers change them.
//!
//! `watch` makes so many looks: each loads every coverage word once and counts the bits that are
//! set. `pairs` counts those of a matrix. No call waits, and none takes memory.
#![tactic(auto)]

mod counting;
mod watching;

pub use counting::pairs;
pub use watching::watch;
