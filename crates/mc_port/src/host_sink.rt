//! A sink over a writer, as standard output or standard error.
ghost use Rattle.std.specs.Prelude.{◌≡◌, ◌≤◌, ◌-◌, ◌^◌, OnOk, OnErr};
ghost use Rattle.std.specs.Io.KnownBytes.{Appends};
ghost use Rattle.mc_port.specs.Sink.{AppendsPart};

use crate::{PutFault, Sink};
use std::io::Write;

/// A sink that writes to a writer, and flushes it after each piece.
/// It tells the bytes that its writer tells: over the machine's streams none.
#[derive(Drop)]
pub struct HostSink<W: Write + Drop> {
    writer: W,
    faults: u64,
    ghost counted: { faults ≤ 2 ^ 64 - 1 },
}

impl<W: Write + Drop> HostSink<W> {
    /// A sink over that writer. Takes no memory.
    pub fn over(writer: W) -> HostSink<W>
        ensures writer { result.writer ≡ writer }
        ensures faults { result.faults ≡ 0 }
    {
        HostSink { writer, faults: 0 }
    }
}

// Writes the whole piece, and flushes.
// A write that takes nothing, or fails, and a failed flush are faults.
fn write_whole<W: Write>(writer: &mut W, piece: &[u8]) -> Result<(), PutFault>
    ensures ok { OnOk result (Appends (W.contents writer.old) (W.contents writer.new) piece.now) }
    ensures err { OnErr result
        (AppendsPart (W.contents writer.old) (W.contents writer.new) piece.now) }
{
    let mut left = piece;
    while !left.is_empty() {
        match writer.write(left) {
            Ok(0) => return Err(PutFault::Failed),
            Ok(count) => left = &left[count..],
            Err(_) => return Err(PutFault::Failed),
        }
    }
    match writer.flush() {
        Ok(()) => Ok(()),
        Err(_) => Err(PutFault::Failed),
    }
}

impl<W: Write + Drop> Sink for HostSink<W> {
    ghost written = { λ s. W.contents s.writer };

    ghost faults = { λ s. s.faults };

    fn put(&mut self, piece: &[u8]) -> Result<(), PutFault> {
        if piece.is_empty() {
            return Ok(());
        }
        match write_whole(&mut self.writer, piece) {
            Ok(()) => Ok(()),
            Err(fault) => {
                self.faults = self.faults.saturating_add(1);
                Err(fault)
            }
        }
    }
}
