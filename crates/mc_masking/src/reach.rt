//! Which conditions can change the outcome of a path.

ghost use Rattle.std.specs.Prelude.{◌≡◌, ℕ, ◌↔◌};
ghost use Rattle.std.specs.Int.{bit_at};
ghost use Rattle.mc_cond.specs.Tree.{tree_of, IsNumbered};
ghost use Rattle.mc_cond.specs.Vectors.{Evaluation};
ghost use Rattle.mc_cond.specs.Influence.{HasInfluence};
ghost use Rattle.mc_paths.specs.Paths.{IsPath, IsInUse};

use mc_cond::CondTree;
use mc_paths::Numbering;

/// The conditions with influence on a path's outcome: bit k is set exactly where some completion of
/// the path's vector changes its outcome when condition k alone is flipped.
pub fn influence(tree: &CondTree, numbering: &Numbering, path: u32) -> u64
    requires tree { IsNumbered (tree_of tree.now) }
    requires numbering { tree_of numbering.now ≡ tree_of tree.now }
    requires path { IsInUse (tree_of tree.now) path }
    ensures { (k : ℕ) (v : Evaluation) → IsPath (tree_of tree.now) path v
        → ((bit_at result k ≡ 1) ↔ HasInfluence (tree_of tree.now) k v) }
{
    numbering.influence(path)
}
