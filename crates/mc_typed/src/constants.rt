//! The values of integer constant expressions (C17 6.6).
ghost use Rattle.std.specs.Prelude.{◌≡◌, IsTrue};
ghost use Rattle.mc_value.specs.IntTypes.{InRange};
ghost use Rattle.mc_value.specs.Conversions.{promoted};
ghost use Rattle.mc_value.specs.Arithmetic.{truth};
ghost use Rattle.mc_typed.specs.Operators as operators;
ghost use Rattle.mc_typed.specs.Constants as constants;
ghost use Rattle.mc_typed.specs.Views.{expression_of};

use crate::expressions::Expression;
use crate::operators::{LogicOperator, Operator};
use mc_value::{IntType, Trap, UnOp, binary, convert, is_in, is_promoted, shift, unary};

fn unless_trap(value: Result<i128, Trap>) -> Option<i128>
    ensures { result ≡ constants.unless_trap value }
{
    match value {
        Ok(value) => Some(value),
        Err(_) => None,
    }
}

fn is_true(value: i128) -> bool
    ensures { result ≡ operators.is_true value }
{
    value != 0
}

fn truth(holds: bool) -> i128
    ensures { result ≡ truth holds }
{
    if holds { 1 } else { 0 }
}

/// Whether the right operand is evaluated too.
fn goes_on(operator: LogicOperator, first: bool) -> bool
    ensures { result ≡ operators.goes_on operator first }
{
    match operator {
        LogicOperator::And => first,
        LogicOperator::Or => !first,
    }
}

/// Whether the type is promoted, and the number one of its values.
fn is_operand(of: IntType, value: i128) -> bool
    ensures value { result ≡ constants.is_operand of value }
    ensures promoted { IsTrue result → promoted of ≡ of }
    ensures within { IsTrue result → InRange of value }
{
    is_promoted(of) && is_in(of, value)
}

/// What an operator of the promoted type `of` gives, where nothing traps (C17 6.5.3.3). Takes no
/// memory.
pub fn unary_value(operator: UnOp, of: IntType, operand: Option<i128>) -> Option<i128>
    ensures { result ≡ constants.unary_value operator of operand }
{
    match operand {
        Some(value) if is_operand(of, value) => unless_trap(unary(operator, of, value)),
        _ => None,
    }
}

/// What a conversion gives (C17 6.3.1.2, 6.3.1.3). Takes no memory.
pub fn converted_value(to: IntType, operand: Option<i128>) -> Option<i128>
    ensures { result ≡ constants.converted_value to operand }
{
    match operand {
        Some(value) => Some(convert(value, to)),
        None => None,
    }
}

/// What `!` gives (C17 6.5.3.3p5). Takes no memory.
pub fn negated_value(operand: Option<i128>) -> Option<i128>
    ensures { result ≡ constants.negated_value operand }
{
    match operand {
        Some(value) => Some(truth(value == 0)),
        None => None,
    }
}

fn operated_value(operator: Operator, of: IntType, left: i128, right: i128) -> Option<i128>
    ensures { result ≡ constants.operated_value operator of left right }
{
    match operator {
        Operator::Binary(operator) if is_operand(of, left) && is_operand(of, right) => {
            unless_trap(binary(operator, of, left, right))
        }
        Operator::Shift(operator) if is_operand(of, left) => {
            unless_trap(shift(operator, of, left, right))
        }
        _ => None,
    }
}

/// What an operator gives for a left operand of the promoted type `of`, where nothing traps (C17
/// 6.5.5 to 6.5.12). Takes no memory.
pub fn binary_value(
    operator: Operator,
    of: IntType,
    left: Option<i128>,
    right: Option<i128>,
) -> Option<i128>
    ensures { result ≡ constants.binary_value operator of left right }
{
    match left {
        Some(left) => match right {
            Some(right) => operated_value(operator, of, left, right),
            None => None,
        },
        None => None,
    }
}

fn truth_value(operand: Option<i128>) -> Option<i128>
    ensures { result ≡ constants.truth_value operand }
{
    match operand {
        Some(value) => Some(truth(is_true(value))),
        None => None,
    }
}

/// What `&&` or `||` gives: where the left operand decides, the right one is not evaluated, and may
/// trap (C17 6.5.13, 6.5.14). Takes no memory.
pub fn logic_value(operator: LogicOperator, left: Option<i128>, right: Option<i128>) -> Option<i128>
    ensures { result ≡ constants.logic_value operator left right }
{
    let right = truth_value(right);
    match left {
        Some(left) => {
            let holds = is_true(left);
            if goes_on(operator, holds) {
                right
            } else {
                Some(truth(holds))
            }
        }
        None => None,
    }
}

/// What `?:` gives: the operand that is not chosen is not evaluated, and may trap (C17 6.5.15p4).
/// Takes no memory.
pub fn choice_value(test: Option<i128>, chosen: Option<i128>, other: Option<i128>) -> Option<i128>
    ensures { result ≡ constants.choice_value test chosen other }
{
    match test {
        Some(test) => if is_true(test) { chosen } else { other },
        None => None,
    }
}

/// The value of an integer constant expression, or none where its evaluation traps; of any other
/// expression there may be none (C17 6.6). Takes no memory.
pub fn constant_value(tree: &Expression) -> Option<i128>
    ensures { result ≡ constants.constant_value (expression_of tree.now) }
{
    match tree {
        Expression::Constant { value, .. } => Some(*value),
        Expression::Read { .. } | Expression::Call { .. } | Expression::Input { .. } => None,
        Expression::Unary {
            operator,
            of,
            operand,
            ..
        } => unary_value(*operator, *of, constant_value(operand)),
        Expression::Convert { to, operand, .. } => converted_value(*to, constant_value(operand)),
        Expression::Not { operand, .. } => negated_value(constant_value(operand)),
        Expression::Binary {
            operator,
            of,
            left,
            right,
            ..
        } => binary_value(*operator, *of, constant_value(left), constant_value(right)),
        Expression::Logic {
            operator,
            left,
            right,
            ..
        } => logic_value(*operator, constant_value(left), constant_value(right)),
        Expression::Choice {
            test,
            chosen,
            other,
            ..
        } => choice_value(
            constant_value(test),
            constant_value(chosen),
            constant_value(other),
        ),
        Expression::Probe { operand, .. } => constant_value(operand),
    }
}
