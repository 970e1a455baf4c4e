//! Operators of typed expressions.
ghost use Rattle.std.specs.Prelude.{◌≡◌};
ghost use Rattle.mc_typed.specs.Sound.{operator_type};

use mc_value::{BinOp, IntType, ShiftOp};

/// An operator on two integers that evaluates both (C17 6.5.5 to 6.5.12).
#[derive(Clone, Copy, Debug, PartialEq, Eq)]
pub enum Operator {
    /// On two operands of one type.
    Binary(BinOp),
    /// `<<` and `>>`, whose operands have each their own type.
    Shift(ShiftOp),
}

/// An operator that evaluates its second operand only where it is needed (C17 6.5.13, 6.5.14).
#[derive(Clone, Copy, Debug, PartialEq, Eq)]
pub enum LogicOperator {
    /// `&&`
    And,
    /// `||`
    Or,
}

/// The type of what an operator gives for a left operand of the type `of`: `int` for the relational
/// and equality operators, else the operand's (C17 6.5.8p6, 6.5.9p3). Takes no memory.
pub(crate) fn operator_result(operator: Operator, of: IntType) -> IntType
    ensures { result ≡ operator_type operator of }
{
    match operator {
        Operator::Binary(BinOp::Lt | BinOp::Gt | BinOp::Le | BinOp::Ge | BinOp::Eq | BinOp::Ne) =>
            IntType::Int,
        Operator::Binary(
            BinOp::Mul
            | BinOp::Div
            | BinOp::Rem
            | BinOp::Add
            | BinOp::Sub
            | BinOp::And
            | BinOp::Xor
            | BinOp::Or,
        )
        | Operator::Shift(_) => of,
    }
}
