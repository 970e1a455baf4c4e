//! Where bytes are put.
ghost use Rattle.std.specs.Prelude.{◌≡◌, ◌≤◌, ◌-◌, ◌^◌, ℕ, List, [], IsOk};
ghost use Rattle.std.specs.declared.option.Option.{Option};
ghost use Rattle.mc_port.specs.Sink.{Puts};

use thiserror::Error;

/// Why a piece was not put whole.
#[derive(Clone, Copy, Debug, PartialEq, Eq, Error)]
pub enum PutFault {
    /// The piece cannot be written. The sink's count of faults rose in the call.
    #[error("the piece cannot be written")]
    Failed,
}

/// Where bytes are written, piece by piece.
pub trait Sink {
    /// The bytes written so far, where they are told.
    ghost written: { Self → Option (List ℕ) };

    /// How often a put has failed. The count never falls, and stays at the last value of a `u64`.
    ghost faults: { Self → ℕ };

    /// Appends the piece. At a fault a first part of it was appended, maybe an empty one.
    /// An empty piece always succeeds, and changes nothing.
    fn put(&mut self, piece: &[u8]) -> Result<(), PutFault>
        ensures bytes { Puts (written self.old) (written self.new)
            (faults self.old) (faults self.new) piece.now result }
        ensures later { faults self.old ≤ faults self.new }
        ensures last { faults self.new ≤ 2 ^ 64 - 1 }
        ensures empty_ok { piece.now ≡ [] → IsOk result }
        ensures empty_same { piece.now ≡ [] → self.new ≡ self.old };
}
