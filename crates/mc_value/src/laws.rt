//! What follows from the definitions, in the words of the C standard. The functions do nothing:
//! each has a law as its contract, and its proof is checked with the crate.

ghost use Rattle.mc_value.specs.Laws.{
  BitOperatorsActOnDigits,
  CommonTypeIsSymmetric,
  ConversionIsTheCongruentValue,
  ConversionKeepsTheRange,
  QuotientAndRemainderRebuild,
  ResultsAreInRange,
  RightShiftRoundsDown,
  UnsignedResultsWrap,
};

/// A conversion gives a value of the type and keeps each value of the type.
/// A second one changes nothing.
pub fn conversion_keeps_the_range()
    ensures { ConversionKeepsTheRange }
{}

/// A conversion to any type but `_Bool` gives the one value of the type that differs from the
/// number by a multiple of 2 to the type's width (C17 6.3.1.3).
pub fn conversion_is_the_congruent_value()
    ensures { ConversionIsTheCongruentValue }
{}

/// The common type of two operands does not depend on their order.
/// A promoted type is common to itself.
pub fn common_type_is_symmetric()
    ensures { CommonTypeIsSymmetric }
{}

/// `*`, `+`, `-` and `<<` in an unsigned type give the value of the type that differs from the
/// mathematical result by a multiple of 2 to the type's width (C17 6.2.5p9).
pub fn unsigned_results_wrap()
    ensures { UnsignedResultsWrap }
{}

/// Where neither traps, the quotient times the divisor plus the remainder is the dividend, the
/// remainder is nearer to 0 than the divisor, and it is 0 or has the dividend's sign (C17 6.5.5p6).
pub fn quotient_and_remainder_rebuild()
    ensures { QuotientAndRemainderRebuild }
{}

/// Each digit of what `&`, `^`, `|` and `~` give is the operation on the operands' digits at its
/// place (C17 6.5.3.3, 6.5.10 to 6.5.12), and a value is the one value of its type with its digits
/// (C17 6.2.6.2).
pub fn bit_operators_act_on_digits()
    ensures { BitOperatorsActOnDigits }
{}

/// `>>` gives the quotient by the power of 2, rounded down (C17 6.5.7p5).
pub fn right_shift_rounds_down()
    ensures { RightShiftRoundsDown }
{}

/// What an operator gives is a value of the result's type.
pub fn results_are_in_range()
    ensures { ResultsAreInRange }
{}
