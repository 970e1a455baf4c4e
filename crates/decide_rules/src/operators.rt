//! The operators between the operands of a decision.
use mc_typed::LogicOperator;

/// An operator between Boolean operands that evaluates both (C17 6.5.10 to 6.5.12).
#[derive(Clone, Copy, Debug, PartialEq, Eq)]
pub enum FullOperator {
    /// `&`
    And,
    /// `|`
    Or,
    /// `^`
    Xor,
}

/// An operator between two operands of a decision.
#[derive(Clone, Copy, Debug, PartialEq, Eq)]
pub enum Junction {
    /// `&&` and `||`, which evaluate the second operand only where it is needed (C17 6.5.13, 6.5.14).
    Short(LogicOperator),
    /// `&`, `|` and `^` between Boolean operands, which evaluate both.
    Full(FullOperator),
}
