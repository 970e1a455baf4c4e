//! The laws, a file for each folder of definitions.

pub mod natural;
pub mod still;
