//! Operators on words.
ghost use Rattle.std.specs.Prelude.{◌≡◌, IfOk};
ghost use Rattle.mc_value.specs.declared.int_type.IntType.{IntType};
ghost use Rattle.mc_value.specs.Conversions.{promoted};
ghost use Rattle.mc_value.specs.Arithmetic.{binary_of, binary_type, unary_of, unary_type};
ghost use Rattle.mc_typed.specs.Sound.{operator_type};
ghost use Rattle.mc_steps.specs.Expressions.{operated};
ghost use Rattle.interp_words.specs.Words.{number_of, result_of, Holds, IsRight, IsRightType};

use crate::arithmetic::{add, divide, multiply, subtract, take_remainder};
use crate::bits::{and, flip, or, xor};
use crate::comparisons::compare;
use crate::shifts::shift;
use mc_typed::Operator;
use mc_value::{BinOp, IntType, Trap, UnOp};

/// What an operator gives for two values of the promoted type `of`, or its trap.
#[inline(always)]
pub fn binary(operator: BinOp, of: IntType, left: u64, right: u64) -> Result<u64, Trap>
    requires type_promoted { promoted of ≡ of }
    requires left { Holds of left }
    requires right { Holds of right }
    ensures value { result_of (binary_type operator of) result
        ≡ binary_of operator of (number_of of left) (number_of of right) }
    ensures within { IfOk result (Holds (binary_type operator of)) }
{
    match operator {
        BinOp::Add => add(of, left, right),
        BinOp::Sub => subtract(of, left, right),
        BinOp::Mul => multiply(of, left, right),
        BinOp::Div => divide(of, left, right),
        BinOp::Rem => take_remainder(of, left, right),
        BinOp::And => Ok(and(of, left, right)),
        BinOp::Xor => Ok(xor(of, left, right)),
        BinOp::Or => Ok(or(of, left, right)),
        BinOp::Lt | BinOp::Gt | BinOp::Le | BinOp::Ge | BinOp::Eq | BinOp::Ne => {
            Ok(u64::from(compare(operator, of, left, right)))
        }
    }
}

/// What an operator gives for a left operand of the promoted type `of`, or its trap.
#[inline(always)]
pub fn operate(operator: Operator, of: IntType, left: u64, right: u64) -> Result<u64, Trap>
    requires type_promoted { promoted of ≡ of }
    requires left { Holds of left }
    requires right { IsRight operator of right }
    ensures value { (u : IntType) → IsRightType operator of u →
        result_of (operator_type operator of) result
        ≡ operated operator of (number_of of left) (number_of u right) }
    ensures within { IfOk result (Holds (operator_type operator of)) }
{
    match operator {
        Operator::Binary(operator) => binary(operator, of, left, right),
        Operator::Shift(operator) => shift(operator, of, left, right),
    }
}

/// What an operator gives for a value of the promoted type `of`, or its trap.
#[inline]
pub fn unary(operator: UnOp, of: IntType, operand: u64) -> Result<u64, Trap>
    requires type_promoted { promoted of ≡ of }
    requires operand { Holds of operand }
    ensures value { result_of (unary_type operator of) result
        ≡ unary_of operator of (number_of of operand) }
    ensures within { IfOk result (Holds (unary_type operator of)) }
{
    match operator {
        UnOp::Plus => Ok(operand),
        UnOp::Minus => subtract(of, 0, operand),
        UnOp::Flip => Ok(flip(of, operand)),
        UnOp::Not => Ok(u64::from(operand == 0)),
    }
}
