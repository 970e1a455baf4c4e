//! A decision with one change.
ghost use Rattle.std.specs.Prelude.{◌≡◌, false, IfOk};
ghost use Rattle.mc_typed.specs.Views.{expression_of};
ghost use Rattle.mc_probe.specs.Views as probed;
ghost use Rattle.mc_probe.specs.Bare.{bare_expression};
ghost use Rattle.mc_probe.specs.Tree as bare;
ghost use Rattle.decide_rules.specs.Nodes as nodes;
ghost use Rattle.mc_mutate.specs.Changes.{exchanged, exchanged_full, of_decision, shifted, truth_at};
ghost use Rattle.mc_mutate.specs.steps.Search as search;
ghost use Rattle.mc_mutate.specs.steps.Changed.{at_number};
ghost use Rattle.mc_mutate.specs.steps.Bared.{bare_converted};
ghost use Rattle.mc_mutate.specs.steps.Replaced.{condition_at, condition_changed, conditions_changed, converted_at, full_at, nodes_changed, operator_at, or_same, plain_at, relation_changed};
ghost use Rattle.mc_typed.specs.Tree as typed;

use crate::changes::MutantKind;
use crate::search::{Sought, in_condition, in_nodes, pass};
use decide_rules::{FullOperator, full_operator, is_boolean};
use instrument_copies::expression;
use mc_typed::{Expression, LogicOperator, Operator, Span};
use mc_value::{BinOp, IntType};
use std::alloc::{AllocError, Global};

/// The mutant with this number, from 0 on, of the decision with this root; the decision as it is
/// where it has no more.
pub(super) fn replaced(
    alloc: Global,
    number: u32,
    tree: &Expression,
) -> Result<Expression, AllocError>
    ensures { IfOk result (λ c. probed.expression_of c
        ≡ bare_expression
        (at_number (of_decision (expression_of tree.now)) (expression_of tree.now) number)) }
{
    let mut sought = Sought::Left(number);
    match in_nodes(sought, tree) {
        Sought::Found(_) => with_node(alloc, &mut sought, tree),
        Sought::Left(rest) => {
            sought = Sought::Left(rest);
            with_condition(alloc, &mut sought, tree)
        }
    }
}

/// From this node down, with the change that is sought in a node.
fn with_node(
    alloc: Global,
    sought: &mut Sought,
    tree: &Expression,
) -> Result<Expression, AllocError>
    ensures tree { IfOk result (λ c. probed.expression_of c
        ≡ bare_expression (nodes_changed (expression_of tree.now) sought.old)) }
    ensures sought { IfOk result (λ _.
        sought.new ≡ search.in_nodes (nodes.expression (expression_of tree.now)) sought.old) }
{
    match tree {
        Expression::Not { operand, span } => {
            let operand = Box::new(alloc, with_node(alloc, sought, operand)?)?;
            Ok(Expression::Not {
                operand,
                span: *span,
            })
        }
        Expression::Logic {
            operator,
            left,
            right,
            span,
        } => {
            let operator = operator_at(*sought, *operator);
            *sought = pass(*sought, MutantKind::Exchanged, *span);
            let left = Box::new(alloc, with_node(alloc, sought, left)?)?;
            let right = Box::new(alloc, with_node(alloc, sought, right)?)?;
            Ok(Expression::Logic {
                operator,
                left,
                right,
                span: *span,
            })
        }
        Expression::Binary {
            operator,
            of,
            left,
            right,
            span,
        } => match full_operator(*operator, left, right) {
            Some(full) => {
                let operator = full_at(*sought, full, *operator);
                *sought = pass(*sought, MutantKind::Exchanged, *span);
                let left = Box::new(alloc, with_node(alloc, sought, left)?)?;
                let right = Box::new(alloc, with_node(alloc, sought, right)?)?;
                Ok(Expression::Binary {
                    operator,
                    of: *of,
                    left,
                    right,
                    span: *span,
                })
            }
            None => expression(alloc, tree),
        },
        Expression::Probe { operand, .. } => with_node(alloc, sought, operand),
        Expression::Constant { .. }
        | Expression::Read { .. }
        | Expression::Unary { .. }
        | Expression::Convert { .. }
        | Expression::Choice { .. }
        | Expression::Call { .. }
        | Expression::Input { .. } => expression(alloc, tree),
    }
}

/// The operator of a node, exchanged where the node is the one that is sought.
fn operator_at(sought: Sought, operator: LogicOperator) -> LogicOperator
    ensures { result ≡ operator_at sought operator }
{
    match sought {
        Sought::Found(_) => operator,
        Sought::Left(number) => {
            if number == 0 {
                exchanged(operator)
            } else {
                operator
            }
        }
    }
}

fn exchanged(operator: LogicOperator) -> LogicOperator
    ensures { result ≡ exchanged operator }
{
    match operator {
        LogicOperator::And => LogicOperator::Or,
        LogicOperator::Or => LogicOperator::And,
    }
}

/// The same of an operator that is evaluated in full.
fn full_at(sought: Sought, full: FullOperator, operator: Operator) -> Operator
    ensures { result ≡ full_at (Some full) sought operator }
{
    match sought {
        Sought::Found(_) => operator,
        Sought::Left(number) => {
            if number == 0 {
                Operator::Binary(exchanged_full(full))
            } else {
                operator
            }
        }
    }
}

fn exchanged_full(full: FullOperator) -> BinOp
    ensures { result ≡ exchanged_full full }
{
    match full {
        FullOperator::And | FullOperator::Xor => BinOp::Or,
        FullOperator::Or => BinOp::And,
    }
}

/// From this node down, with the change that is sought in a condition.
fn with_condition(
    alloc: Global,
    sought: &mut Sought,
    tree: &Expression,
) -> Result<Expression, AllocError>
    ensures tree { IfOk result (λ c. probed.expression_of c
        ≡ bare_expression (conditions_changed (expression_of tree.now) sought.old)) }
    ensures sought { IfOk result (λ _. sought.new
        ≡ search.in_conditions (nodes.expression (expression_of tree.now)) sought.old) }
{
    match tree {
        Expression::Not { operand, span } => {
            let operand = Box::new(alloc, with_condition(alloc, sought, operand)?)?;
            Ok(Expression::Not {
                operand,
                span: *span,
            })
        }
        Expression::Logic {
            operator,
            left,
            right,
            span,
        } => {
            let left = Box::new(alloc, with_condition(alloc, sought, left)?)?;
            let right = Box::new(alloc, with_condition(alloc, sought, right)?)?;
            Ok(Expression::Logic {
                operator: *operator,
                left,
                right,
                span: *span,
            })
        }
        Expression::Binary {
            operator,
            of,
            left,
            right,
            span,
        } => match full_operator(*operator, left, right) {
            Some(_) => {
                let left = Box::new(alloc, with_condition(alloc, sought, left)?)?;
                let right = Box::new(alloc, with_condition(alloc, sought, right)?)?;
                Ok(Expression::Binary {
                    operator: *operator,
                    of: *of,
                    left,
                    right,
                    span: *span,
                })
            }
            None => {
                let before = *sought;
                *sought = in_condition(before, is_boolean(tree), *span);
                condition(alloc, before, tree)
            }
        },
        Expression::Probe { operand, .. } => with_condition(alloc, sought, operand),
        Expression::Constant { .. }
        | Expression::Read { .. }
        | Expression::Unary { .. }
        | Expression::Convert { .. }
        | Expression::Choice { .. }
        | Expression::Call { .. }
        | Expression::Input { .. } => {
            let before = *sought;
            *sought = in_condition(before, is_boolean(tree), tree.span());
            condition(alloc, before, tree)
        }
    }
}

/// A condition, changed where it has the mutant that is sought.
fn condition(alloc: Global, sought: Sought, tree: &Expression) -> Result<Expression, AllocError>
    ensures { IfOk result (λ c. probed.expression_of c
        ≡ bare_expression (condition_changed (expression_of tree.now) sought)) }
{
    match sought {
        Sought::Found(_) => expression(alloc, tree),
        Sought::Left(number) => condition_at(alloc, number, tree),
    }
}

/// The mutant with this number, from 0 on, of a condition; the condition as it is where it has no
/// more.
fn condition_at(alloc: Global, number: u32, tree: &Expression) -> Result<Expression, AllocError>
    ensures { IfOk result (λ c. probed.expression_of c
        ≡ bare_expression (condition_at (expression_of tree.now) number)) }
{
    match tree {
        Expression::Convert {
            to,
            written: false,
            operand,
            span,
        } => converted_at(alloc, number, *to, operand, *span),
        Expression::Probe { operand, .. } => condition_at(alloc, number, operand),
        Expression::Constant { .. }
        | Expression::Read { .. }
        | Expression::Unary { .. }
        | Expression::Convert { .. }
        | Expression::Not { .. }
        | Expression::Binary { .. }
        | Expression::Logic { .. }
        | Expression::Choice { .. }
        | Expression::Call { .. }
        | Expression::Input { .. } => plain_at(alloc, number, tree),
    }
}

/// The same of a condition that is not converted.
fn plain_at(alloc: Global, number: u32, tree: &Expression) -> Result<Expression, AllocError>
    ensures { IfOk result (λ c. probed.expression_of c
        ≡ bare_expression (plain_at (expression_of tree.now) number)) }
{
    if number == 0 {
        negated(alloc, tree, tree.span())
    } else if number == 1 {
        with_constant(alloc, LogicOperator::Or, 1, tree, tree.span())
    } else if number == 2 {
        with_constant(alloc, LogicOperator::And, 0, tree, tree.span())
    } else if number == 3 {
        shifted(alloc, tree)
    } else {
        expression(alloc, tree)
    }
}

/// The same of an implied conversion, whose operand is the condition.
fn converted_at(
    alloc: Global,
    number: u32,
    to: IntType,
    tree: &Expression,
    span: Span,
) -> Result<Expression, AllocError>
    ensures { IfOk result (λ c. probed.expression_of c
        ≡ bare_expression (converted_at to (expression_of tree.now) span number)) }
{
    if number == 0 {
        let changed = negated(alloc, tree, span)?;
        converted_from_int(alloc, to, changed, span)
    } else if number == 1 {
        let changed = with_constant(alloc, LogicOperator::Or, 1, tree, span)?;
        converted_from_int(alloc, to, changed, span)
    } else if number == 2 {
        let changed = with_constant(alloc, LogicOperator::And, 0, tree, span)?;
        converted_from_int(alloc, to, changed, span)
    } else {
        let copy = expression(alloc, tree)?;
        converted(alloc, to, copy, span)
    }
}

/// A number of type int, converted where the type is another.
fn converted_from_int(
    alloc: Global,
    to: IntType,
    operand: Expression,
    span: Span,
) -> Result<Expression, AllocError>
    ensures { IfOk result (λ c. probed.expression_of c
        ≡ bare_converted to (probed.expression_of operand) span) }
{
    match to {
        IntType::Int => Ok(operand),
        _ => converted(alloc, to, operand, span),
    }
}

fn converted(
    alloc: Global,
    to: IntType,
    operand: Expression,
    span: Span,
) -> Result<Expression, AllocError>
    ensures { IfOk result (λ c. probed.expression_of c
        ≡ bare.Convert to false (probed.expression_of operand) span) }
{
    let operand = Box::new(alloc, operand)?;
    Ok(Expression::Convert {
        to,
        written: false,
        operand,
        span,
    })
}

fn negated(alloc: Global, tree: &Expression, span: Span) -> Result<Expression, AllocError>
    ensures { IfOk result (λ c. probed.expression_of c
        ≡ bare_expression (typed.Not (expression_of tree.now) span)) }
{
    let operand = Box::new(alloc, expression(alloc, tree)?)?;
    Ok(Expression::Not { operand, span })
}

/// The condition with a constant as the right operand, which is 0 or 1.
fn with_constant(
    alloc: Global,
    operator: LogicOperator,
    value: u8,
    tree: &Expression,
    span: Span,
) -> Result<Expression, AllocError>
    ensures { IfOk result (λ c. probed.expression_of c
        ≡ bare_expression
        (typed.Logic operator (expression_of tree.now) (truth_at value span) span)) }
{
    let left = Box::new(alloc, expression(alloc, tree)?)?;
    let right = Box::new(
        alloc,
        Expression::Constant {
            value: i128::from(value),
            of: IntType::Int,
            span,
        },
    )?;
    Ok(Expression::Logic {
        operator,
        left,
        right,
        span,
    })
}

/// A relation with the operator beside its own; another condition as it is.
fn shifted(alloc: Global, tree: &Expression) -> Result<Expression, AllocError>
    ensures { IfOk result (λ c. probed.expression_of c
        ≡ bare_expression (relation_changed (expression_of tree.now))) }
{
    match tree {
        Expression::Binary {
            operator,
            of,
            left,
            right,
            span,
        } => {
            let left = Box::new(alloc, expression(alloc, left)?)?;
            let right = Box::new(alloc, expression(alloc, right)?)?;
            Ok(Expression::Binary {
                operator: shifted_operator(*operator),
                of: *of,
                left,
                right,
                span: *span,
            })
        }
        Expression::Probe { operand, .. } => shifted(alloc, operand),
        Expression::Constant { .. }
        | Expression::Read { .. }
        | Expression::Unary { .. }
        | Expression::Convert { .. }
        | Expression::Not { .. }
        | Expression::Logic { .. }
        | Expression::Choice { .. }
        | Expression::Call { .. }
        | Expression::Input { .. } => expression(alloc, tree),
    }
}

fn shifted_operator(operator: Operator) -> Operator
    ensures { result ≡ or_same (shifted operator) operator }
{
    match operator {
        Operator::Binary(BinOp::Lt) => Operator::Binary(BinOp::Le),
        Operator::Binary(BinOp::Le) => Operator::Binary(BinOp::Lt),
        Operator::Binary(BinOp::Gt) => Operator::Binary(BinOp::Ge),
        Operator::Binary(BinOp::Ge) => Operator::Binary(BinOp::Gt),
        Operator::Binary(BinOp::Eq) => Operator::Binary(BinOp::Ne),
        Operator::Binary(BinOp::Ne) => Operator::Binary(BinOp::Eq),
        Operator::Binary(
            BinOp::Mul
            | BinOp::Div
            | BinOp::Rem
            | BinOp::Add
            | BinOp::Sub
            | BinOp::And
            | BinOp::Xor
            | BinOp::Or,
        )
        | Operator::Shift(_) => operator,
    }
}
