//! Workers on the shared words of a matrix: each claims items and records, under each item that it
//! claimed, the bits that are hit.
//!
//! `Recorder::fork` gives a worker its pass and the memory that it needs. The worker calls `claim`
//! until it gives no item, and hands the recorder as a probe to what runs the item. The opener
//! joins the passes that the recorders give back. No call waits, and none but `fork` takes memory.
#![tactic(auto)]

mod recorder;

pub use recorder::Recorder;
