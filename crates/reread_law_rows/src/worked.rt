//! Worked texts, a file for each folder of definitions.

pub mod inserted;
