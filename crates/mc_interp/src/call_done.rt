//! Calls of a test that returned.

/// A call that returned: its value, and how many numbers stood in the output after it.
#[derive(Clone, Copy)]
pub struct CallDone {
    pub value: Option<i128>,
    pub output_end: u32,
}
