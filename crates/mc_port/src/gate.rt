//! A place that workers pass.

/// A place that a worker passes after it has claimed an item and before it runs it.
/// A test can hold workers there; the product's gate is open.
pub trait Gate: Sync {
    /// Comes back at once or later; it says nothing and changes nothing that a contract knows.
    fn pass(&self, item: u32);
}

/// A gate that holds nobody.
#[derive(Clone, Copy)]
pub struct OpenGate {}

impl OpenGate {
    /// Takes no memory.
    pub fn new() -> OpenGate {
        OpenGate {}
    }
}

impl Gate for OpenGate {
    fn pass(&self, _item: u32) {}
}
