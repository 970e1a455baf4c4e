//! The laws, a file for each folder of definitions.

pub mod converted;
pub mod counted;
pub mod put;
pub mod short;
pub mod stood;
