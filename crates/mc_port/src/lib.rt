//! The outside: a store of files, sinks of bytes, a gate for workers, and the words of a command
//! line. Each is a trait or a type with one form over the machine and one in memory.
#![tactic(auto)]

mod gate;
mod host_sink;
mod host_store;
mod lines;
mod memory_sink;
mod memory_store;
mod sink;
mod store;
mod words;

pub use gate::{Gate, OpenGate};
pub use host_sink::HostSink;
pub use host_store::HostStore;
pub use lines::put_lines;
pub use memory_sink::MemorySink;
pub use memory_store::MemoryStore;
pub use sink::{PutFault, Sink};
pub use store::{LoadFault, Store};
pub use words::Words;
