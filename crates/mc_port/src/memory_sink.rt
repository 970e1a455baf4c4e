//! Bytes in memory, with puts that fail where a test lists them.
ghost use Rattle.std.specs.Prelude.{◌≡◌, ◌≢◌, ◌≤◌, ◌-◌, ◌^◌, [], length, Some, IfOk, IsOk, vec_capacity};
ghost use Rattle.std.specs.Result.{is_err};
ghost use Rattle.mc_port.specs.Causes.{raised};
ghost use Rattle.mc_port.specs.MemorySink.{faults_after, listed_at, put_of};
ghost use Rattle.mc_port.specs.Sink.{Puts};

use crate::{PutFault, Sink};
use std::alloc::{AllocError, Global};

/// A sink that keeps its bytes in memory that it takes when it is made, and fails exactly at the
/// puts that are listed and at those whose piece would pass its room. It tells its bytes.
/// Puts are numbered from 1; one of an empty piece is not numbered.
#[derive(Drop)]
pub struct MemorySink {
    bytes: Vec<u8>,
    room: u32,
    failing: Vec<(u32, u32)>,
    puts: u64,
    faults: u64,
    ghost counted: { faults ≤ 2 ^ 64 - 1 },
    ghost has_room: { room ≤ vec_capacity bytes },
    ghost within: { length bytes.items ≤ room },
}

impl MemorySink {
    /// An empty sink with room for that many bytes. Each pair of `failing` lists a put by its
    /// number, and how many bytes it takes before it fails; of two pairs with one number the first
    /// is meant.
    pub fn new(alloc: Global, room: u32, failing: Vec<(u32, u32)>) -> Result<MemorySink, AllocError>
        ensures bytes { IfOk result (λ sink. sink.bytes.items ≡ []) }
        ensures room { IfOk result (λ sink. sink.room ≡ room) }
        ensures failing { IfOk result (λ sink. sink.failing ≡ failing) }
        ensures puts { IfOk result (λ sink. sink.puts ≡ 0) }
        ensures faults { IfOk result (λ sink. sink.faults ≡ 0) }
    {
        let bytes = Vec::with_capacity(alloc, room as usize)?;
        Ok(MemorySink {
            bytes,
            room,
            failing,
            puts: 0,
            faults: 0,
        })
    }

    /// The bytes written so far.
    pub fn bytes(&self) -> &[u8]
        ensures { result.now ≡ self.now.bytes.items }
    {
        &self.bytes
    }
}

// How many bytes the put of this number takes before it fails, where it is listed.
fn listed(failing: &[(u32, u32)], number: u64) -> Option<u32>
    ensures { result ≡ listed_at failing.now number }
{
    let mut left = failing;
    while let [(at, takes), later @ ..] = left {
        if u64::from(*at) == number {
            return Some(*takes);
        }
        left = later;
    }
    None
}

impl Sink for MemorySink {
    ghost written = { λ s. Some s.bytes.items };

    ghost faults = { λ s. s.faults };

    /// Takes no memory.
    fn put(&mut self, piece: &[u8]) -> Result<(), PutFault>
        ensures bytes { Puts (Some self.old.bytes.items) (Some self.new.bytes.items)
            self.old.faults self.new.faults piece.now result }
        ensures later { self.old.faults ≤ self.new.faults }
        ensures last { self.new.faults ≤ 2 ^ 64 - 1 }
        ensures empty_ok { piece.now ≡ [] → IsOk result }
        ensures empty_same { piece.now ≡ [] → self.new ≡ self.old }

        // It fails exactly at the puts that are listed and where the room is too small, and its
        // count rises at these alone.
        ensures exact { piece.now ≢ [] → (is_err result, self.new.bytes.items)
            ≡ put_of self.old.bytes.items self.old.room
            (listed_at self.old.failing.items (raised self.old.puts)) piece.now }
        ensures faults { self.new.faults ≡ faults_after self.old.faults result }
        ensures puts { piece.now ≢ [] → self.new.puts ≡ raised self.old.puts }
        ensures room { self.new.room ≡ self.old.room }
        ensures failing { self.new.failing ≡ self.old.failing }
    {
        if piece.is_empty() {
            return Ok(());
        }
        self.puts = self.puts.saturating_add(1);
        let left = self.room as usize - self.bytes.len();
        if let Some(takes) = listed(&self.failing, self.puts) {
            let part = piece.len().min(left).min(takes as usize);
            let _ = self.bytes.extend_from_slice(&piece[..part]);
            self.faults = self.faults.saturating_add(1);
            return Err(PutFault::Failed);
        }
        if piece.len() > left || self.bytes.extend_from_slice(piece).is_err() {
            self.faults = self.faults.saturating_add(1);
            return Err(PutFault::Failed);
        }
        Ok(())
    }
}
