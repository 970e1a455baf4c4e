//! The integer types of C and the arithmetic on them. No call takes memory.
#![tactic(auto)]

mod arithmetic;
mod conversions;
mod int_type;
mod laws;
mod object_type;
mod operators;
mod shifts;
mod trap;

pub use arithmetic::{binary, unary};
pub use conversions::{common, convert, is_promoted, promote};
pub use int_type::{IntType, is_in, is_signed, range, width};
pub use laws::{
    bit_operators_act_on_digits, common_type_is_symmetric, conversion_is_the_congruent_value,
    conversion_keeps_the_range, quotient_and_remainder_rebuild, results_are_in_range,
    right_shift_rounds_down, unsigned_results_wrap,
};
pub use object_type::{MOST_CELLS, ObjType, cells};
pub use operators::{BinOp, ShiftOp, UnOp};
pub use shifts::shift;
pub use trap::Trap;
