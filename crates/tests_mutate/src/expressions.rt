//! Typed expressions as C text: each operator in parentheses, an object by its number. A `!`, `&&`,
//! `||` or constant is followed by where it begins and ends.
use mc_typed::{
    Argument, Expression, FunctionCall, LogicOperator, Operator, Place, Slot, Span, Structure,
};
use mc_value::{BinOp, ShiftOp, UnOp};
use std::alloc::AllocError;

/// The punctuator of an operator on two operands.
pub fn symbol(operator: Operator) -> &'static str {
    match operator {
        Operator::Binary(BinOp::Mul) => "*",
        Operator::Binary(BinOp::Div) => "/",
        Operator::Binary(BinOp::Rem) => "%",
        Operator::Binary(BinOp::Add) => "+",
        Operator::Binary(BinOp::Sub) => "-",
        Operator::Binary(BinOp::Lt) => "<",
        Operator::Binary(BinOp::Gt) => ">",
        Operator::Binary(BinOp::Le) => "<=",
        Operator::Binary(BinOp::Ge) => ">=",
        Operator::Binary(BinOp::Eq) => "==",
        Operator::Binary(BinOp::Ne) => "!=",
        Operator::Binary(BinOp::And) => "&",
        Operator::Binary(BinOp::Xor) => "^",
        Operator::Binary(BinOp::Or) => "|",
        Operator::Shift(ShiftOp::Left) => "<<",
        Operator::Shift(ShiftOp::Right) => ">>",
    }
}

fn sign(operator: UnOp) -> &'static str {
    match operator {
        UnOp::Plus => "+",
        UnOp::Minus => "-",
        UnOp::Flip => "~",
        UnOp::Not => "!",
    }
}

fn logic_symbol(operator: LogicOperator) -> &'static str {
    match operator {
        LogicOperator::And => "&&",
        LogicOperator::Or => "||",
    }
}

fn show_span(shown: &mut String, span: Span) -> Result<(), AllocError> {
    let Span { start, end } = span;
    write!(shown, "[{start}-{end}]")
}

/// An object of the function: `v`, and its number.
pub fn show_slot(shown: &mut String, slot: Slot) -> Result<(), AllocError> {
    let object = slot.object;
    write!(shown, "v{object}")
}

/// An expression.
#[cycle(show)]
pub fn show_expression(shown: &mut String, tree: &Expression) -> Result<(), AllocError> {
    match tree {
        Expression::Constant { value, span, .. } => {
            write!(shown, "{value}")?;
            show_span(shown, *span)
        }
        Expression::Input { .. } => shown.push_str("mcdc_in()"),
        Expression::Read { place, .. } => show_place(shown, place),
        Expression::Unary {
            operator,
            operand,
            ..
        } => show_after(shown, sign(*operator), operand),
        Expression::Convert { to, operand, .. } => {
            write!(shown, "({to:?})")?;
            show_expression(shown, operand)
        }
        Expression::Not { operand, span } => {
            show_after(shown, "!", operand)?;
            show_span(shown, *span)
        }
        Expression::Binary {
            operator,
            left,
            right,
            ..
        } => {
            show_after(shown, "(", left)?;
            show_after(shown, symbol(*operator), right)?;
            shown.push_str(")")
        }
        Expression::Logic {
            operator,
            left,
            right,
            span,
        } => {
            show_after(shown, "(", left)?;
            show_after(shown, logic_symbol(*operator), right)?;
            shown.push_str(")")?;
            show_span(shown, *span)
        }
        Expression::Choice {
            test,
            chosen,
            other,
            ..
        } => {
            show_after(shown, "(", test)?;
            shown.push_str("?")?;
            show_after(shown, "(", chosen)?;
            show_after(shown, ":", other)?;
            shown.push_str("))")
        }
        Expression::Call { call, .. } => show_call(shown, call),
        Expression::Probe { .. } => shown.push_str("probe"),
    }
}

#[cycle(show)]
fn show_after(shown: &mut String, before: &str, tree: &Expression) -> Result<(), AllocError> {
    shown.push_str(before)?;
    show_expression(shown, tree)
}

#[cycle(show)]
fn show_index(shown: &mut String, index: &Expression) -> Result<(), AllocError> {
    show_after(shown, "[", index)?;
    shown.push_str("]")
}

/// A place. An object of the program has the letter `g`, the array of a parameter `p`.
#[cycle(show)]
pub fn show_place(shown: &mut String, tree: &Place) -> Result<(), AllocError> {
    match tree {
        Place::Local { slot, .. } => show_slot(shown, *slot),
        Place::Static { slot, .. } => {
            let object = slot.object;
            write!(shown, "g{object}")
        }
        Place::Parameter { array, index, .. } => {
            write!(shown, "p{array}")?;
            show_index(shown, index)
        }
        Place::Item { array, index, .. } => {
            show_place(shown, array)?;
            show_index(shown, index)
        }
        Place::Member {
            structure,
            member,
            ..
        } => {
            show_place(shown, structure)?;
            write!(shown, ".{member}")
        }
    }
}

/// A structure.
#[cycle(show)]
pub fn show_structure(shown: &mut String, tree: &Structure) -> Result<(), AllocError> {
    match tree {
        Structure::Stored { place } => show_place(shown, place),
        Structure::Returned { call } => show_call(shown, call),
    }
}

/// A call: `f`, the function's number, and the arguments, a comma after each.
#[cycle(show)]
pub fn show_call(shown: &mut String, tree: &FunctionCall) -> Result<(), AllocError> {
    let function = tree.function;
    write!(shown, "f{function}(")?;
    show_arguments(shown, &tree.arguments)?;
    shown.push_str(")")
}

#[cycle(show)]
fn show_arguments(shown: &mut String, trees: &[Argument]) -> Result<(), AllocError> {
    for tree in trees {
        show_argument(shown, tree)?;
        shown.push_str(",")?;
    }
    Ok(())
}

#[cycle(show)]
fn show_argument(shown: &mut String, tree: &Argument) -> Result<(), AllocError> {
    match tree {
        Argument::Number { value } => show_expression(shown, value),
        Argument::Structure { value, .. } => show_structure(shown, value),
        Argument::Array { place, .. } => show_place(shown, place),
        Argument::Again { array, .. } => write!(shown, "p{array}"),
    }
}
