//! Two paths compared by their words.

ghost use Rattle.std.specs.Prelude.{◌≡◌, ◌≢◌, ℕ, ◌<◌, ◌↔◌, IsTrue, true, bit_and, bit_xor};
ghost use Rattle.std.specs.Int.{bit_at};
ghost use Rattle.mc_cond.specs.Tree.{tree_of, size, IsNumbered};
ghost use Rattle.mc_paths.specs.Paths.{IsInUse};
ghost use Rattle.mc_paths.specs.Masks.{IsMaskOf};
ghost use Rattle.mc_pairs.specs.Pairs.{ArePaired, HasInfluenceAs, turned};
ghost use Rattle.mc_unique.specs.Unique.{IsUniquePair};
ghost use Rattle.mc_unique.specs.steps.Prefixes.{AreAlike};

use mc_paths::Numbering;

/// Whether the answers before condition `k` are equal in two paths.
pub(crate) fn are_alike(numbering: &Numbering, k: u32, one: u32, other: u32) -> bool
    requires numbered { IsNumbered (tree_of numbering.now) }
    requires condition { k < size (tree_of numbering.now) }
    requires one { IsInUse (tree_of numbering.now) one }
    requires other { IsInUse (tree_of numbering.now) other }
    ensures { IsTrue result ↔ AreAlike (tree_of numbering.now) k one other }
{
    same_below(k, numbering.evaluated(one), numbering.evaluated(other))
        && same_below(k, numbering.value(one), numbering.value(other))
}

/// Whether two paths are a pair for condition `k`, which is true in the first.
pub(crate) fn are_paired(numbering: &Numbering, k: u32, first: u32, second: u32) -> bool
    requires numbered { IsNumbered (tree_of numbering.now) }
    requires condition { k < size (tree_of numbering.now) }
    requires first { IsInUse (tree_of numbering.now) first }
    requires on { HasInfluenceAs (tree_of numbering.now) k true first }
    requires second { IsInUse (tree_of numbering.now) second }
    ensures { IsTrue result ↔ ArePaired (turned k (IsUniquePair (tree_of numbering.now) k))
        (tree_of numbering.now) first second }
{
    let one = numbering.evaluated(first);
    let other = numbering.evaluated(second);
    if !differ_alone(
        k,
        numbering.value(first),
        numbering.value(second),
        one & other,
    ) {
        return false;
    }
    differ(numbering.outcome_of(first), numbering.outcome_of(second))
}

/// Whether the bits below bit `k` are equal in two words.
fn same_below(k: u32, one: u64, other: u64) -> bool
    requires { k < 64 }
    ensures { IsTrue result ↔ ((j : ℕ) → j < k → bit_at one j ≡ bit_at other j) }
{
    (one ^ other) & ((1 << k) - 1) == 0
}

/// Whether bit `k` alone differs in two words, of the bits that a third has.
fn differ_alone(k: u32, one: u64, other: u64, among: u64) -> bool
    requires { k < 64 }
    ensures { IsTrue result ↔ IsMaskOf (bit_and (bit_xor one other) among) (λ j. j ≡ k) }
{
    (one ^ other) & among == 1 << k
}

fn differ(one: bool, other: bool) -> bool
    ensures { IsTrue result ↔ (one ≢ other) }
{
    one != other
}
