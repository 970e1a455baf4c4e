//! Bits that were counted by hand, and trees with other probes than a program's own.
ghost use Rattle.tests_probe.specs.Counting as counting;
ghost use Rattle.mc_value.specs.declared.operators.BinOp.TheVariants.{And, Or, Xor};
ghost use Rattle.tests_probe.specs.ByHand.{MapIsThat, ShortMapIsThat, ShortTreeIsThat, TreeIsThat};
ghost use Rattle.tests_probe.specs.FullByHand as full;
ghost use Rattle.tests_probe.specs.Bits.{Again, Anywhere, Compared, Cut, InBits, Nested, OfLong, Wraps, WrapsInside};

/// The order of the bits, and a decision that a trap cuts.
pub fn bits_by_hand()
    ensures anywhere { Anywhere }
    ensures compared { Compared }
    ensures again { Again }
    ensures cut { Cut }
{}

/// A loop with its map by hand, and its last unit of fuel.
pub fn map_by_hand()
    ensures map { counting.IsItsMap }
    ensures enough { counting.WithFuel }
    ensures too_little { counting.WithoutFuel }
{}

/// A condition is true where it differs from 0 in its own type.
pub fn conditions_have_their_type()
    ensures { OfLong }
{}

/// Sums wrap modulo 2^32, in a register and at a decision's base.
pub fn sums_wrap()
    ensures base { Wraps }
    ensures register { WrapsInside }
{}

/// A bit that is none of the tree's is not hit.
pub fn other_bits_are_not_hit()
    ensures { InBits }
{}

/// Registers belong to the activation and begin at 0.
pub fn activations_have_registers()
    ensures { Nested }
{}

/// A program with each probe: its map and its tree were written by hand from the text.
pub fn tree_by_hand()
    ensures map { MapIsThat }
    ensures tree { TreeIsThat }
{}

/// So were those of a function that has one decision.
pub fn short_tree_by_hand()
    ensures map { ShortMapIsThat }
    ensures tree { ShortTreeIsThat }
{}

/// So were those of a decision with an operator that is evaluated in full, which has an idle
/// number; and the bits of two conditions between which such an operator stands.
pub fn full_operators_by_hand()
    ensures map { full.MapIsThat }
    ensures tree { full.TreeIsThat }
    ensures and_bits { full.PathsOf And }
    ensures or_bits { full.PathsOf Or }
    ensures xor_bits { full.PathsOf Xor }
    ensures mixed_bits { full.MixedHits }
{}
