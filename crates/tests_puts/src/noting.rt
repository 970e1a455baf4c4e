//! A sink that notes what is put after a failure.
ghost use Rattle.std.specs.Prelude.{◌≡◌};

use mc_port::{PutFault, Sink};

/// A sink over another one, which notes how many pieces were put, and how many of them after one
/// had failed. Empty pieces do not count.
#[derive(Drop)]
pub struct NotingSink<K: Sink + Drop> {
    sink: K,
    puts: u32,
    has_failed: bool,
    later: u32,
}

impl<K: Sink + Drop> NotingSink<K> {
    /// A sink that has noted nothing.
    pub fn over(sink: K) -> NotingSink<K> {
        NotingSink {
            sink,
            puts: 0,
            has_failed: false,
            later: 0,
        }
    }

    /// The sink below.
    pub fn sink(&self) -> &K {
        &self.sink
    }

    /// How many pieces were put.
    pub fn puts(&self) -> u32 {
        self.puts
    }

    /// How many of them were put after one had failed.
    pub fn later(&self) -> u32 {
        self.later
    }
}

impl<K: Sink + Drop> Sink for NotingSink<K> {
    ghost written = { λ s. K.written s.sink };

    ghost faults = { λ s. K.faults s.sink };

    fn put(&mut self, piece: &[u8]) -> Result<(), PutFault> {
        if !piece.is_empty() {
            self.puts = self.puts.saturating_add(1);
            if self.has_failed {
                self.later = self.later.saturating_add(1);
            }
        }
        match self.sink.put(piece) {
            Ok(()) => Ok(()),
            Err(fault) => {
                self.has_failed = true;
                Err(fault)
            }
        }
    }
}
