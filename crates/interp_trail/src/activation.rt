//! What is kept of each activation that is open.

/// An open activation: its function, and the last of its counted statements that began.
#[derive(Clone, Copy)]
pub(crate) struct Activation {
    pub(crate) function: u32,
    pub(crate) statement: Option<u32>,
}
