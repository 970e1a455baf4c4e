//! The laws, a file for each folder of definitions.

pub mod carried;
pub mod fitting;
pub mod signed;
pub mod taken;
