//! The paths in which a condition has influence.

ghost use Rattle.std.specs.Prelude.{◌≡◌, ◌<◌, ◌↔◌, IsTrue};
ghost use Rattle.std.specs.Int.{bit_at};
ghost use Rattle.mc_cond.specs.Tree.{tree_of, size, IsNumbered};
ghost use Rattle.mc_pairs.specs.Pairs.{HasInfluenceAs};

use mc_paths::Numbering;

/// Whether condition `k` has this value in a path, and influence on the path's outcome. A number
/// that is idle is no path.
pub fn has_influence_as(numbering: &Numbering, path: u32, k: u32, value: bool) -> bool
    requires numbered { IsNumbered (tree_of numbering.now) }
    requires condition { k < size (tree_of numbering.now) }
    ensures { IsTrue result ↔ HasInfluenceAs (tree_of numbering.now) k value path }
{
    if !numbering.in_use(path) {
        return false;
    }
    if !has_bit(numbering.influence(path), k) {
        return false;
    }
    has_bit(numbering.value(path), k) == value
}

fn has_bit(word: u64, k: u32) -> bool
    requires { k < 64 }
    ensures { IsTrue result ↔ (bit_at word k ≡ 1) }
{
    (word >> k) & 1 == 1
}
