//! Probes round expressions.
ghost use Rattle.std.specs.Prelude.{◌≡◌, ◌≤◌, drop, length, take, IfOk};
ghost use Rattle.mc_typed.specs.Views as plain;
ghost use Rattle.mc_typed.specs.Tree.{span_of};
ghost use Rattle.decide_rules.specs.Nodes.{is_flag};
ghost use Rattle.mc_probe.specs.Tree as tree;
ghost use Rattle.mc_probe.specs.Views as probed;
ghost use Rattle.reread_put_back.specs.Back as spec;
ghost use Rattle.reread_put_back.specs.Pens.{noted};
ghost use Rattle.reread_put_back.specs.steps.Views.{pen_of};

use crate::pen::{Pen, is_same, note};
use crate::sums::end_round;
use crate::walk::Walk;
use mc_typed::{Expression, Probe};
use mc_value::IntType;
use reread_pieces::{Placed, What};
use std::alloc::{AllocError, Global};

fn is_round(what: What) -> bool
    ensures { result ≡ spec.is_round what }
{
    match what {
        What::Decision { .. } | What::Condition { .. } | What::Switch { .. } => true,
        _ => false,
    }
}

/// Whether a probe stands round an implied conversion of this type.
fn is_outer(of: IntType, what: What) -> bool
    ensures { result ≡ spec.is_outer of what }
{
    match what {
        What::Condition { .. } => matches!(of, IntType::Bool),
        What::Switch { .. } => true,
        _ => false,
    }
}

/// Whether a probe can stand round this expression.
fn has_round(tree: &Expression, what: What) -> bool
    ensures { result ≡ spec.has_round (plain.expression_of tree.now) what }
{
    match tree {
        Expression::Convert {
            written: false,
            operand,
            ..
        } => is_outer(operand.integer_type(), what),
        Expression::Probe { operand, .. } => has_round(operand, what),
        Expression::Constant { .. }
        | Expression::Read { .. }
        | Expression::Unary { .. }
        | Expression::Convert { written: true, .. }
        | Expression::Not { .. }
        | Expression::Binary { .. }
        | Expression::Logic { .. }
        | Expression::Choice { .. }
        | Expression::Call { .. }
        | Expression::Input { .. } => is_round(what),
    }
}

/// Whether a probe stands round this expression.
fn is_there(tree: &Expression, probe: &Placed) -> bool
    ensures { result ≡ spec.is_there (plain.expression_of tree.now) probe.now }
{
    is_same(probe.span, tree.span()) && has_round(tree, probe.what)
}

/// How many probes at the front stand round this expression.
fn leading(tree: &Expression, probes: &[Placed]) -> usize
    ensures count { result ≡ spec.leading (plain.expression_of tree.now) probes.now }
    ensures within { result ≤ length probes.now }
{
    let mut count = 0;
    let mut left = probes;
    while let [probe, later @ ..] = left {
        if !is_there(tree, probe) {
            return count;
        }
        count += 1;
        left = later;
    }
    count
}

/// Takes the probes at the front that stand round this expression.
pub(crate) fn take_round<'p>(pen: &mut Pen<'p>, tree: &Expression) -> &'p [Placed]
    ensures round { result.now ≡ take
        (spec.leading (plain.expression_of tree.now) pen.old.left.now) pen.old.left.now }
    ensures left { pen_of pen.new ≡ record (pen_of pen.old) {
      left = drop
          (spec.leading (plain.expression_of tree.now) pen.old.left.now) pen.old.left.now;
    } }
{
    let count = leading(tree, pen.left);
    let round = &pen.left[..count];
    pen.left = &pen.left[count..];
    round
}

/// An expression with a probe round it.
fn probe_round(alloc: Global, probe: Probe, operand: Expression) -> Result<Expression, AllocError>
    ensures { IfOk result (λ c.
        probed.expression_of c ≡ tree.Probe probe (probed.expression_of operand)) }
{
    let operand = Box::new(alloc, operand)?;
    Ok(Expression::Probe { probe, operand })
}

fn round(alloc: Global, what: What, operand: Expression) -> Result<Expression, AllocError>
    ensures { IfOk result (λ c.
        probed.expression_of c ≡ spec.round what (probed.expression_of operand)) }
{
    match what {
        What::Decision { register, base } => {
            probe_round(alloc, Probe::Decision { register, base }, operand)
        }
        What::Condition {
            register,
            on_true,
            on_false,
        } => {
            let probe = Probe::Condition {
                register,
                on_true,
                on_false,
            };
            probe_round(alloc, probe, operand)
        }
        What::Switch { register } => probe_round(alloc, Probe::Switch { register }, operand),
        _ => Ok(operand),
    }
}

/// Notes a probe round its operand.
#[tactic(auto, using(crate::proofs::Ends::noted_same))]
fn note_round(pen: &mut Pen<'_>, registers: u32, probe: Placed, operand: &Expression)
    ensures { pen_of pen.new ≡ noted registers probe
        (spec.end_round probe.what (probed.expression_of operand.now)) (pen_of pen.old) }
{
    let end = end_round(probe.what, operand);
    note(pen, registers, probe, end);
}

/// An operand with one probe round it, which is noted.
fn one_round(
    walk: &Walk,
    pen: &mut Pen<'_>,
    probe: &Placed,
    operand: Expression,
) -> Result<Expression, AllocError>
    ensures part { IfOk result (λ c.
        probed.expression_of c ≡ spec.round probe.now.what (probed.expression_of operand)) }
    ensures pen { IfOk result (λ _. pen_of pen.new ≡ noted walk.now.registers probe.now
        (spec.end_round probe.now.what (probed.expression_of operand)) (pen_of pen.old)) }
{
    note_round(pen, walk.registers, *probe, &operand);
    round(walk.alloc, probe.what, operand)
}

/// An operand with probes round it, of which the first is the outermost.
pub(crate) fn surround(
    walk: &Walk,
    pen: &mut Pen<'_>,
    probes: &[Placed],
    operand: Expression,
) -> Result<Expression, AllocError>
    ensures part { IfOk result (λ c. probed.expression_of c
        ≡ (spec.surrounded walk.now.registers probes.now
        (probed.expression_of operand, pen_of pen.old)).0) }
    ensures pen { IfOk result (λ _. pen_of pen.new
        ≡ (spec.surrounded walk.now.registers probes.now
        (probed.expression_of operand, pen_of pen.old)).1) }
{
    let mut inner = operand;
    let mut left = probes;
    while let [earlier @ .., probe] = left {
        let around = one_round(walk, pen, probe, inner)?;
        inner = around;
        left = earlier;
    }
    Ok(inner)
}
