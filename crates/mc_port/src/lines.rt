//! How lines are put, each as one piece.
ghost use Rattle.std.specs.Prelude.{◌≡◌, ◌≤◌};
ghost use Rattle.std.specs.List.{concat};
ghost use Rattle.mc_port.specs.Lines.{bytes_of};
ghost use Rattle.mc_port.specs.Sink.{Puts};

use crate::{PutFault, Sink};

/// Puts one line after the other, each as one piece, up to the first that cannot be put. Takes no
/// memory.
pub fn put_lines<K: Sink>(lines: &[Vec<u8>], out: &mut K) -> Result<(), PutFault>
    ensures bytes { Puts (K.written out.old) (K.written out.new)
        (K.faults out.old) (K.faults out.new) (concat (bytes_of lines.now)) result }
    ensures later { K.faults out.old ≤ K.faults out.new }
{
    let mut left = lines;
    while let [line, later @ ..] = left {
        match out.put(line) {
            Ok(()) => left = later,
            Err(fault) => return Err(fault),
        }
    }
    Ok(())
}
