//! Instruments programs: puts the probes into a typed program, and tells which bit belongs to which
//! event.
#![tactic(auto)]

mod copies;
mod program;

pub use instrument_bits::InstrumentFault;
pub use program::instrument;
