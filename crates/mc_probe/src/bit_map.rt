//! The map of the bits.
ghost use Rattle.mc_limits.specs.Limits.{most_bits};
ghost use Rattle.std.specs.Prelude.{◌+◌, ◌≤◌, map, length};
ghost use Rattle.mc_probe.specs.Maps.{AreBased};
ghost use Rattle.mc_probe.specs.Same.{AreBased-prop};
ghost use Rattle.mc_probe.specs.Mapped.{mapped_of};

use crate::mapped::MappedDecision;
use mc_typed::Span;

/// Where each event of a program stands, in the order of the text, and so which bit it has: first
/// come the entries, then the exits, the counted statements and the labels, and then the path
/// numbers of each decision. `bits` is how many there are, at most 65,536.
#[derive(Drop)]
pub struct BitMap {
    pub entries: Vec<Span>,
    pub exits: Vec<Span>,
    pub statements: Vec<Span>,
    pub labels: Vec<Span>,
    pub decisions: Vec<MappedDecision>,
    pub bits: u32,
    ghost based: { AreBased (map mapped_of decisions.items)
        (length entries.items + length exits.items + length statements.items + length labels.items)
        bits } by { AreBased-prop _ _ _ },
    ghost few: { bits ≤ most_bits },
}
