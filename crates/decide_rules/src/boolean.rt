//! Boolean expressions and operands, and the operators on them that are evaluated in full.
ghost use Rattle.std.specs.Prelude.{◌≡◌};
ghost use Rattle.mc_typed.specs.Views.{expression_of};
ghost use Rattle.decide_rules.specs.Nodes.{bitwise, expression, full_operator, is_comparison, is_flag, is_operand};
ghost use Rattle.decide_rules.specs.Roots.{is_boolean};

use crate::operators::FullOperator;
use mc_typed::{Expression, Operator};
use mc_value::{BinOp, IntType};

/// Whether the top operator is `&&`, `||`, `!`, a relational or an equality operator, or `&`, `|`
/// or `^` between Boolean operands (C17 6.5.3.3, 6.5.8 to 6.5.14). Takes no memory.
pub fn is_boolean(tree: &Expression) -> bool
    ensures { result ≡ is_boolean (expression (expression_of tree.now)) }
{
    match tree {
        Expression::Not { .. } | Expression::Logic { .. } => true,
        Expression::Binary {
            operator,
            left,
            right,
            ..
        } => match full_operator(*operator, left, right) {
            Some(_) => true,
            None => is_comparison(*operator),
        },
        Expression::Probe { operand, .. } => is_boolean(operand),
        Expression::Constant { .. }
        | Expression::Read { .. }
        | Expression::Unary { .. }
        | Expression::Convert { .. }
        | Expression::Choice { .. }
        | Expression::Call { .. }
        | Expression::Input { .. } => false,
    }
}

/// Which operator of a decision this operator is between these operands: `&`, `|` and `^` are
/// Boolean operators where both operands are Boolean. Takes no memory.
pub fn full_operator(
    operator: Operator,
    left: &Expression,
    right: &Expression,
) -> Option<FullOperator>
    ensures { result ≡ full_operator operator (expression_of left.now) (expression_of right.now) }
{
    let found = bitwise(operator)?;
    // In a long chain the left operand is the rest of the chain, so the right one is asked first.
    if is_operand(right) && is_operand(left) {
        Some(found)
    } else {
        None
    }
}

/// Whether an expression is a Boolean operand: one that `is_boolean` takes, or one of type `_Bool`.
/// An implied conversion is no operator of the text.
fn is_operand(tree: &Expression) -> bool
    ensures { result ≡ is_operand (expression_of tree.now) }
{
    match tree {
        Expression::Logic { .. } | Expression::Not { .. } => true,
        Expression::Binary {
            operator,
            left,
            right,
            ..
        } => {
            is_comparison(*operator)
                || bitwise(*operator).is_some() && is_operand(right) && is_operand(left)
        }
        Expression::Probe { operand, .. } => is_operand(operand),
        Expression::Convert {
            written: false,
            operand,
            ..
        } => is_operand(operand),
        Expression::Constant { .. }
        | Expression::Read { .. }
        | Expression::Unary { .. }
        | Expression::Convert { .. }
        | Expression::Choice { .. }
        | Expression::Call { .. } => is_flag(tree.integer_type()),
        Expression::Input { .. } => false,
    }
}

fn is_flag(of: IntType) -> bool
    ensures { result ≡ is_flag of }
{
    matches!(of, IntType::Bool)
}

fn bitwise(operator: Operator) -> Option<FullOperator>
    ensures { result ≡ bitwise operator }
{
    match operator {
        Operator::Binary(BinOp::And) => Some(FullOperator::And),
        Operator::Binary(BinOp::Or) => Some(FullOperator::Or),
        Operator::Binary(BinOp::Xor) => Some(FullOperator::Xor),
        Operator::Binary(_) | Operator::Shift(_) => None,
    }
}

fn is_comparison(operator: Operator) -> bool
    ensures { result ≡ is_comparison operator }
{
    match operator {
        Operator::Binary(BinOp::Lt | BinOp::Gt | BinOp::Le | BinOp::Ge | BinOp::Eq | BinOp::Ne) =>
            true,
        Operator::Binary(
            BinOp::Mul
            | BinOp::Div
            | BinOp::Rem
            | BinOp::Add
            | BinOp::Sub
            | BinOp::And
            | BinOp::Xor
            | BinOp::Or,
        )
        | Operator::Shift(_) => false,
    }
}
