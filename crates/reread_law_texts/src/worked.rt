//! Worked texts, a file for each folder of definitions.

pub mod alike;
pub mod apart;
pub mod brackets;
