//! Worked numbers of small decisions with operators that are evaluated in full.
//! The functions do nothing: each has what was worked out by hand as its contract.

ghost use Rattle.std.specs.Prelude.{◌≡◌, true, false, [], ◌∷◌};
ghost use Rattle.mc_paths.specs.Paths.{count_of, IsInUse};
ghost use Rattle.mc_paths.specs.Samples.{
  xor_then_and,
  full_and,
  many_xors,
  on,
  off,
  skip,
  HasNumber,
};

/// `(a ^ b) && c` has six vectors. The number 1 is idle.
pub fn xor_before_and()
    ensures count { count_of xor_then_and ≡ 7 }
    ensures zero { HasNumber xor_then_and (on ∷ on ∷ skip ∷ []) false 0 }
    ensures one { IsInUse xor_then_and 1 → ⊥ }
    ensures two { HasNumber xor_then_and (on ∷ off ∷ on ∷ []) true 2 }
    ensures three { HasNumber xor_then_and (on ∷ off ∷ off ∷ []) false 3 }
    ensures four { HasNumber xor_then_and (off ∷ on ∷ on ∷ []) true 4 }
    ensures five { HasNumber xor_then_and (off ∷ on ∷ off ∷ []) false 5 }
    ensures six { HasNumber xor_then_and (off ∷ off ∷ skip ∷ []) false 6 }
{}

/// `a & b` evaluates both conditions in each of its four vectors.
pub fn full_and_alone()
    ensures count { count_of full_and ≡ 4 }
    ensures zero { HasNumber full_and (on ∷ on ∷ []) true 0 }
    ensures one { HasNumber full_and (on ∷ off ∷ []) false 1 }
    ensures two { HasNumber full_and (off ∷ on ∷ []) false 2 }
    ensures three { HasNumber full_and (off ∷ off ∷ []) false 3 }
{}

/// Twelve conditions joined by `^` take up as many numbers as a decision may have, and thirteen
/// take up too many.
pub fn xors_in_a_row()
    ensures twelve { count_of (many_xors 11) ≡ 4096 }
    ensures thirteen { count_of (many_xors 12) ≡ 8192 }
{}
