//! Conversions that C implies (C17 6.3.1).
ghost use Rattle.std.specs.Prelude.{◌≡◌, IfOk};
ghost use Rattle.mc_typed.specs.Views.{expression_of};
ghost use Rattle.types_rules.specs.Expressions as expressions;

use mc_typed::Expression;
use mc_value::IntType;
use std::alloc::{AllocError, Global};

/// The expression, converted where it has another type.
pub fn convert_to(alloc: Global, to: IntType, operand: Expression) -> Result<Expression, AllocError>
    ensures { IfOk result (λ r. expression_of r
        ≡ expressions.convert_to to (expression_of operand)) }
{
    if operand.integer_type() == to {
        return Ok(operand);
    }
    let span = operand.span();
    let operand = Box::new(alloc, operand)?;
    Ok(Expression::Convert {
        to,
        written: false,
        operand,
        span,
    })
}

/// The integer promotions (C17 6.3.1.1p2).
pub fn promote(alloc: Global, operand: Expression) -> Result<Expression, AllocError>
    ensures { IfOk result (λ r. expression_of r ≡ expressions.promote (expression_of operand)) }
{
    let to = mc_value::promote(operand.integer_type());
    convert_to(alloc, to, operand)
}
