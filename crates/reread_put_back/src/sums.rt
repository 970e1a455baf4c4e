//! The greatest sums of the paths through the operand of a decision.
ghost use Rattle.std.specs.Prelude.{◌≡◌, ◌+◌, ◌-◌, ◌^◌, max, min, nat_eq, if◌then◌else◌};
ghost use Rattle.mc_probe.specs.Views.{expression_of};
ghost use Rattle.decide_rules.specs.Nodes.{bitwise};
ghost use Rattle.reread_put_back.specs.Back.{end_round};
ghost use Rattle.reread_put_back.specs.Sums as spec;
ghost use Rattle.reread_put_back.specs.steps.Greatest as steps;

use decide_rules::FullOperator;
use mc_typed::{Expression, LogicOperator, Operator, Probe};
use mc_value::BinOp;
use reread_pieces::What;

/// The greatest sum of the paths that end true, and of those that end false, as far as the type. A
/// sum that reaches its end is beyond each bit.
#[derive(Clone, Copy)]
pub(crate) struct Greatest {
    pub on_true: u32,
    pub on_false: u32,
}

fn leaf(on_true: u32, on_false: u32) -> Greatest
    ensures { result ≡ steps.greatest_of (spec.leaf on_true on_false) }
{
    Greatest { on_true, on_false }
}

fn negated(operand: Greatest) -> Greatest
    ensures { result ≡ record { on_true = operand.on_false; on_false = operand.on_true } }
{
    Greatest {
        on_true: operand.on_false,
        on_false: operand.on_true,
    }
}

/// Those of `&&` and `||`.
fn joined(operator: LogicOperator, left: Greatest, right: Greatest) -> Greatest
    ensures { result ≡ steps.joined operator left right }
{
    match operator {
        LogicOperator::And => Greatest {
            on_true: left.on_true.saturating_add(right.on_true),
            on_false: left
                .on_false
                .max(left.on_true.saturating_add(right.on_false)),
        },
        LogicOperator::Or => Greatest {
            on_true: left
                .on_true
                .max(left.on_false.saturating_add(right.on_true)),
            on_false: left.on_false.saturating_add(right.on_false),
        },
    }
}

/// Those of `&`, `|` and `^`.
fn both(operator: FullOperator, left: Greatest, right: Greatest) -> Greatest
    ensures { result ≡ steps.both operator left right }
{
    let tt = left.on_true.saturating_add(right.on_true);
    let tf = left.on_true.saturating_add(right.on_false);
    let ft = left.on_false.saturating_add(right.on_true);
    let ff = left.on_false.saturating_add(right.on_false);
    match operator {
        FullOperator::And => Greatest {
            on_true: tt,
            on_false: tf.max(ft.max(ff)),
        },
        FullOperator::Or => Greatest {
            on_true: tt.max(tf.max(ft)),
            on_false: ff,
        },
        FullOperator::Xor => Greatest {
            on_true: tf.max(ft),
            on_false: tt.max(ff),
        },
    }
}

/// The full operator that this operator is.
fn bitwise(operator: Operator) -> Option<FullOperator>
    ensures { result ≡ bitwise operator }
{
    match operator {
        Operator::Binary(BinOp::And) => Some(FullOperator::And),
        Operator::Binary(BinOp::Or) => Some(FullOperator::Or),
        Operator::Binary(BinOp::Xor) => Some(FullOperator::Xor),
        _ => None,
    }
}

/// Those of a probe, which adds to its own register alone.
fn at_probe(register: u32, probe: Probe) -> Greatest
    ensures { result ≡ steps.greatest_of (spec.at_probe register probe) }
{
    match probe {
        Probe::Condition {
            register: own,
            on_true,
            on_false,
        } if own == register => leaf(on_true, on_false),
        _ => leaf(0, 0),
    }
}

/// Those of an operand, for a register.
fn paths(register: u32, tree: &Expression) -> Greatest
    ensures { result ≡ steps.greatest_of (spec.paths register (expression_of tree.now)) }
{
    match tree {
        Expression::Convert {
            written: false,
            operand,
            ..
        } => paths(register, operand),
        Expression::Not { operand, .. } => negated(paths(register, operand)),
        Expression::Binary {
            operator,
            left,
            right,
            ..
        } => match bitwise(*operator) {
            Some(operator) => both(operator, paths(register, left), paths(register, right)),
            None => leaf(0, 0),
        },
        Expression::Logic {
            operator,
            left,
            right,
            ..
        } => joined(*operator, paths(register, left), paths(register, right)),
        Expression::Probe { probe, .. } => at_probe(register, *probe),
        Expression::Constant { .. }
        | Expression::Read { .. }
        | Expression::Unary { .. }
        | Expression::Convert { written: true, .. }
        | Expression::Choice { .. }
        | Expression::Call { .. }
        | Expression::Input { .. } => leaf(0, 0),
    }
}

/// One more than the greatest bit that a probe reaches round this operand, or a number that is as
/// much beyond each bit as that.
#[tactic(auto, using(crate::proofs::Ends::end_is))]
pub(crate) fn end_round(what: What, operand: &Expression) -> u64
    ensures { steps.IsEnd result (end_round what (expression_of operand.now)) }
{
    match what {
        What::Decision { register, base } => {
            let sums = paths(register, operand);
            u64::from(base) + u64::from(sums.on_true.max(sums.on_false)) + 1
        }
        _ => 0,
    }
}
