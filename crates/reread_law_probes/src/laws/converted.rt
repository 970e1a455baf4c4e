//! Laws of the implied conversions of a typed text: they stand where C implies them. The functions
//! do nothing: each has a law as its contract.
ghost use Rattle.reread_law_probes.specs.converted.Laws.{ImpliedConversionsStand};

use laws_types::{programs_have_their_source, units_are_exact};

/// Each implied conversion of a text's program stands where its operand stands and is no conversion
/// of another one; none stands round what is tested, and under `&`, `|` and `^` between two Boolean
/// operands only a `_Bool` is converted.
pub fn implied_conversions_stand()
    ensures { ImpliedConversionsStand }
{
    programs_have_their_source();
    units_are_exact();
}
