//! Worked pairs of a small decision with an operator that is evaluated in full.
//! The function does nothing: it has what was worked out by hand as its contract.

ghost use Rattle.std.specs.Prelude.{true, false, [], ◌∷◌};
ghost use Rattle.mc_cond.specs.Influence.{HasInfluence};
ghost use Rattle.mc_paths.specs.Samples.{xor_then_and, on, off, skip};
ghost use Rattle.mc_masking.specs.Samples.{vector, ArePair};

/// `(a ^ b) && c`: the tests that evaluate `TT-=F`, `TFT=T`, `FTF=F` and `FF-=F` show each
/// condition. The first condition has influence in `TT-=F` and `FF-=F`, and is true in one of them
/// alone, and still they are no pair.
pub fn xor_before_and()
    ensures first { ArePair 0 (vector (on ∷ off ∷ on ∷ []) true)
        (vector (off ∷ off ∷ skip ∷ []) false) }
    ensures second { ArePair 1 (vector (on ∷ on ∷ skip ∷ []) false)
        (vector (on ∷ off ∷ on ∷ []) true) }
    ensures third { ArePair 2 (vector (on ∷ off ∷ on ∷ []) true)
        (vector (off ∷ on ∷ off ∷ []) false) }
    ensures one { HasInfluence xor_then_and 0 (vector (on ∷ on ∷ skip ∷ []) false) }
    ensures other { HasInfluence xor_then_and 0 (vector (off ∷ off ∷ skip ∷ []) false) }
    ensures apart { ArePair 0 (vector (on ∷ on ∷ skip ∷ []) false)
        (vector (off ∷ off ∷ skip ∷ []) false) → ⊥ }
{}
