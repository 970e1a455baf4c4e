//! Numbers of the integer types of C as words of 64 bits, and the operators on them. No call takes
//! memory.
#![tactic(auto)]

mod arithmetic;
mod bits;
mod comparisons;
mod conversions;
mod operators;
mod shifts;
mod words;

pub use comparisons::compare;
pub use conversions::convert;
pub use operators::{binary, operate, unary};
pub use shifts::shift;
pub use words::{number, word};
