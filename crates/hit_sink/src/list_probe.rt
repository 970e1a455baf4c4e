//! A probe that keeps hits.
ghost use Rattle.mc_limits.specs.Limits.{most_bits};
ghost use Rattle.std.specs.Prelude.{◌≡◌, [], IfOk};
ghost use Rattle.hit_sink.specs.Lists.{Leads};

use crate::probe::Probe;
use std::alloc::{AllocError, Global};
use std::marker::Model;

/// Keeps the first hits, as many as it has room for. It has 65,536 bits. All memory is taken when
/// it is made.
#[derive(Drop)]
pub struct ListProbe {
    hits: Vec<u32>,
    room: u32,
}

impl Model for ListProbe {
    ghost use Rattle.std.specs.Prelude.{◌≤◌, vec_capacity};
    ghost use Rattle.hit_sink.specs.Lists.{Kept};

    ghost Value = { Kept };

    ghost view = { λ p. record { hits = p.hits.items; room = p.room } };

    ghost invariant = { λ p. p.room ≤ vec_capacity p.hits };
}

impl ListProbe {
    /// No hit, and room for this number of hits.
    pub fn new(alloc: Global, room: u32) -> Result<ListProbe, AllocError>
        ensures { IfOk result (λ p. p ≡ record { hits = []; room = room }) }
    {
        let hits = Vec::with_capacity(alloc, room as usize)?;
        Ok(ListProbe { hits, room })
    }

    /// The hits that are kept, in order. Takes no memory.
    pub fn hits(&self) -> &[u32]
        ensures { result.now ≡ self.now.hits }
    {
        &self.hits
    }
}

impl Probe for ListProbe {
    ghost use Rattle.hit_sink.specs.Lists.{Leads};
    ghost use Rattle.hit_sink.specs.Joined.{stays, joins};

    ghost bits = { λ p. most_bits };

    ghost leads = { Leads };

    fn hit(&mut self, bit: u32) {
        if self.hits.len() < self.room as usize {
            match self.hits.push(bit) {
                Ok(()) => {}
                Err(_) => unreachable!(),
            }
        }
    }

    ghost stays = { stays };

    ghost joins = { joins };
}
