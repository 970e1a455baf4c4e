//! Worked pairs of a small decision with an operator that is evaluated in full.
//! The function does nothing: it has what was worked out by hand as its contract.

ghost use Rattle.std.specs.Prelude.{true, false, [], ◌∷◌};
ghost use Rattle.mc_paths.specs.Samples.{on, off, skip};
ghost use Rattle.mc_unique.specs.Samples.{vector, ArePair};

/// `(a ^ b) && c`: the tests that evaluate `TT-=F`, `TFT=T`, `FTF=F` and `FF-=F` show the first two
/// conditions. The third is not shown, since `TFT=T` and `FTF=F` differ before it. The first is
/// true in `TT-=F` and false in `FTF=F`, which agree elsewhere, and still they are no pair.
pub fn xor_before_and()
    ensures first { ArePair 0 (vector (on ∷ off ∷ on ∷ []) true)
        (vector (off ∷ off ∷ skip ∷ []) false) }
    ensures second { ArePair 1 (vector (on ∷ on ∷ skip ∷ []) false)
        (vector (on ∷ off ∷ on ∷ []) true) }
    ensures third { ArePair 2 (vector (on ∷ off ∷ on ∷ []) true)
        (vector (off ∷ on ∷ off ∷ []) false) → ⊥ }
    ensures apart { ArePair 0 (vector (on ∷ on ∷ skip ∷ []) false)
        (vector (off ∷ on ∷ off ∷ []) false) → ⊥ }
{}
