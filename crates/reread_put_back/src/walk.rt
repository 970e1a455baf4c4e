//! What the copies of a function's parts are given.

use std::alloc::Global;

/// Where memory is taken from, and how many registers the function has.
#[derive(Drop)]
pub(crate) struct Walk {
    pub alloc: Global,
    pub registers: u32,
}
