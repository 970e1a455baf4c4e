//! An instrumented text, read again: its typed program, with its probes at what they stand at.
#![tactic(auto)]

mod fault;
pub mod laws;
mod phases;
mod text;

pub use fault::RereadFault;
pub use text::reread;
