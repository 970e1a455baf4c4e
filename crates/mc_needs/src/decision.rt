//! The decisions of a map.
ghost use Rattle.std.specs.Prelude.{◌≡◌, ◌+◌, ◌≤◌, slice_get, Some};
ghost use Rattle.mc_cond.specs.Tree.{tree_of};
ghost use Rattle.mc_paths.specs.Paths.{count_of};
ghost use Rattle.mc_probe.specs.BitMaps.{map_of};
ghost use Rattle.mc_probe.specs.Mapped.{mapped_of};
ghost use Rattle.mc_needs.specs.steps.Each.{IsDecisionIn};

use mc_probe::{BitMap, MappedDecision};

/// The decision of this number.
pub(crate) fn decision_at(map: &BitMap, d: u32) -> &MappedDecision
    requires { IsDecisionIn (slice_get (map_of map.now).decisions d) }
    ensures known { slice_get (map_of map.now).decisions d ≡ Some (mapped_of result.now) }
    ensures within { result.now.base + count_of (tree_of result.now.decision.tree)
        ≤ map.now.bits }
{
    &map.decisions[d as usize]
}
