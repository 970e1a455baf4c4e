//! The tokens of a source that are left to read, what the parser asks of them, and how it puts what
//! it reads on the heap and into lists. The crates of the parser alone stand on this one.
#![tactic(auto)]

pub mod cursor;
pub mod fault;
mod parts;
mod places;
pub mod rule;
pub mod values;

pub use parts::{is_too_high, is_unary};
pub use places::to;
