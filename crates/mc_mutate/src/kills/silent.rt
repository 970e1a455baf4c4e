//! A probe for runs of which only the result counts.
use hit_sink::Probe;

/// Keeps nothing of what is hit.
#[derive(Drop)]
pub(crate) struct Silent {}

impl Probe for Silent {
    ghost use Rattle.mc_mutate.specs.Silent.{Leads, bits, joins, stays};

    ghost bits = { bits };

    ghost leads = { Leads };

    fn hit(&mut self, _bit: u32) {}

    ghost stays = { stays };

    ghost joins = { joins };
}
