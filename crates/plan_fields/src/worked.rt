//! Worked examples: what short texts say. The functions do nothing: each has a law as its contract.
ghost use Rattle.std.specs.Prelude.{◌≡◌, ◌∷◌, [], None, Some, codes, pos, neg_ℤ};
ghost use Rattle.csv_records.specs.Numbers.{number_of};
ghost use Rattle.plan_fields.specs.Numbers.{int_of, numbers_of};

/// A number has no `+`, no leading 0 and no `-0`, and lies from -2^63 to 2^64 - 1.
pub fn numbers_have_one_spelling()
    ensures negative { number_of (codes "-7") ≡ Some (neg_ℤ (pos 7)) }
    ensures minus_zero { number_of (codes "-0") ≡ None }
    ensures zero_first { number_of (codes "07") ≡ None }
    ensures plus { number_of (codes "+7") ≡ None }
    ensures too_large { number_of (codes "18446744073709551616") ≡ None }
    ensures no_int { int_of (codes "2147483648") ≡ None }
{}

/// One space stands between two numbers, and none at an end. No numbers are an empty text.
pub fn one_space_between_numbers()
    ensures two { numbers_of int_of (codes "1 -2") ≡ Some (pos 1 ∷ neg_ℤ (pos 2) ∷ []) }
    ensures none { numbers_of int_of [] ≡ Some [] }
    ensures two_spaces { numbers_of int_of (codes "1  2") ≡ None }
    ensures at_the_end { numbers_of int_of (codes "1 ") ≡ None }
{}
