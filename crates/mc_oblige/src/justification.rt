//! Justifications: why an obligation need not be met.
ghost use Rattle.std.specs.Prelude.{◌≡◌, IfOk};

use std::alloc::{AllocError, Global};
use std::marker::Model;

/// A reason, seen as its bytes.
#[derive(Drop)]
pub struct Reason {
    bytes: Vec<u8>,
}

impl Model for Reason {
    ghost use Rattle.std.specs.Prelude.{List, ℕ};

    ghost Value = { List ℕ };

    ghost view = { λ r. r.bytes.items };
}

impl Reason {
    /// The reason of these bytes.
    pub fn new(bytes: Vec<u8>) -> Reason
        ensures { result ≡ bytes.items }
    {
        Reason { bytes }
    }

    /// Its bytes. Takes no memory.
    pub fn bytes(&self) -> &[u8]
        ensures { result.now ≡ self.now }
    {
        &self.bytes
    }

    /// The same reason again.
    pub(crate) fn copied(&self, alloc: Global) -> Result<Reason, AllocError>
        ensures { IfOk result (λ r. r ≡ self.now) }
    {
        let bytes = self.bytes().to_vec(alloc)?;
        Ok(Reason::new(bytes))
    }
}

/// An obligation, by its position in the list of obligations, and why it need not be met.
#[derive(Drop)]
pub struct Justification {
    pub obligation: u32,
    pub reason: Reason,
}
