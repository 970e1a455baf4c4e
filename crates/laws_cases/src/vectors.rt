//! Vectors of decisions. The functions do nothing: each has a law as its contract.
ghost use Rattle.laws_cases.specs.Vectors.{NumberIsOnce, NumberKeepsOrder, RanksRise};

use mc_paths::{number_once, number_order};

/// The vectors of `a & b`, whose operator is evaluated in full, have different numbers in the order
/// of the vectors.
pub fn full_operators_have_numbers()
    ensures once { NumberIsOnce }
    ensures order { NumberKeepsOrder }
{
    number_once();
    number_order();
}

/// True stands before false, and false before not evaluated.
pub fn ranks_rise()
    ensures { RanksRise }
{}
