//! What a shift gives (C17 6.5.7).

ghost use Rattle.std.specs.Prelude.{◌≡◌, ◌<◌, IfOk};
ghost use Rattle.mc_value.specs.IntTypes.{InRange, width_of};
ghost use Rattle.mc_value.specs.Conversions.{promoted};
ghost use Rattle.mc_value.specs.Shifts.{shift_of, shifted_by, shifted_left};

use crate::conversions::wrap;
use crate::int_type::{IntType, is_in, is_signed, width};
use crate::operators::ShiftOp;
use crate::trap::Trap;

/// What a shift of a value of the promoted type `t` by any number gives (C17 6.5.7).
/// `Shift` where `count` is negative or not below the type's width, and at a left shift of a signed
/// type where the value is negative or the result is out of range.
pub fn shift(op: ShiftOp, t: IntType, a: i128, count: i128) -> Result<i128, Trap>
    requires type_promoted { promoted t ≡ t }
    requires operand { InRange t a }
    ensures value { result ≡ shift_of op t a count }
    ensures within { IfOk result (λ v. InRange t v) }
{
    if count < 0 || width(t) as i128 <= count {
        return Err(Trap::Shift);
    }
    shift_by(op, t, a, count as u32)
}

fn shift_by(op: ShiftOp, t: IntType, a: i128, count: u32) -> Result<i128, Trap>
    requires operand { InRange t a }
    requires amount { count < width_of t }
    ensures value { result ≡ shifted_by op t a count }
    ensures within { IfOk result (λ v. InRange t v) }
{
    match op {
        ShiftOp::Left => shift_left(t, a, count),
        ShiftOp::Right => Ok(a >> count),
    }
}

fn shift_left(t: IntType, a: i128, count: u32) -> Result<i128, Trap>
    requires operand { InRange t a }
    requires amount { count < width_of t }
    ensures value { result ≡ shifted_left t a count }
    ensures within { IfOk result (λ v. InRange t v) }
{
    let product = a * (1i128 << count);
    if !is_signed(t) {
        Ok(wrap(product, t))
    } else if 0 <= a && is_in(t, product) {
        Ok(product)
    } else {
        Err(Trap::Shift)
    }
}
