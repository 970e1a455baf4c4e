//! The justification file: which obligations of a source it justifies, or its first fault.
#![tactic(auto)]

mod draft;
mod entries;
mod entry;
mod fault;
mod json;
mod positions;
mod read;

pub use fault::JustifyFault;
pub use read::read_justifications;
