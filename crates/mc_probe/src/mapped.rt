//! Decisions with the bits of their paths.
ghost use Rattle.decide_rules.specs.Seen.{decision_of};
ghost use Rattle.mc_probe.specs.Maps.{IsPlaced};
ghost use Rattle.mc_probe.specs.Same.{Numbers, Numbers-prop, IsPlaced-prop};

use decide_rules::Decision;
use mc_paths::Numbering;

/// A decision, the numbers of its paths, and the bit of its first path: path k has the bit
/// `base + k`.
#[derive(Drop)]
pub struct MappedDecision {
    pub decision: Decision,
    pub numbering: Numbering,
    pub base: u32,
    ghost same: { Numbers numbering decision.tree } by { Numbers-prop numbering decision.tree },
    ghost placed: { IsPlaced (decision_of decision) } by { IsPlaced-prop _ },
}
