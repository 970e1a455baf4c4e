//! Sinks in memory.

use crate::fail::Fail;
use mc_port::MemorySink;
use std::alloc::Global;

/// A sink that takes this number of bytes.
pub fn sink_of(alloc: Global, room: u32) -> Result<MemorySink, Fail> {
    Ok(MemorySink::new(alloc, room, Vec::new(alloc))?)
}

/// A sink that takes this number of bytes, of which the put of a number fails after a number of
/// bytes; there is no put of the number 0.
pub fn failing_sink(alloc: Global, room: u32, failing: (u32, u32)) -> Result<MemorySink, Fail> {
    let mut list = Vec::new(alloc);
    list.push(failing)?;
    Ok(MemorySink::new(alloc, room, list)?)
}
