//! Calls that returned.

/// What a call returned, where it returned a value, and how many numbers stood in the output then.
#[derive(Clone, Copy)]
pub struct ReturnedCall {
    pub value: Option<i128>,
    pub output_end: u32,
}
