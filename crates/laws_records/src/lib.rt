//! Laws on records: which texts are read as one, and which are refused for line 1. There is no code
//! in it, but laws.
#![tactic(auto)]

mod laws;

pub use laws::{old_texts_are_refused, texts_are_read, unknown_versions_are_refused};
