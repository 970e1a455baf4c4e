//! What a walk over a program gathers.
ghost use Rattle.std.specs.Prelude.{◌≡◌, ◌∷◌, ◌++◌, ◌≤◌, [], if◌then◌else◌, length, map, take, IfOk, IfErr, Some, None};
ghost use Rattle.mc_limits.specs.Limits.{most_conditions};
ghost use Rattle.mc_typed.specs.Views.{expression_of};
ghost use Rattle.decide_rules.specs.Nodes as nodes;
ghost use Rattle.decide_rules.specs.Conditions.{width};
ghost use Rattle.decide_rules.specs.steps.Walk.{decision};
ghost use Rattle.decide_walk.specs.steps.Gathering.{added, begun, cut, gathered_of, grown, stopped};
ghost use Rattle.decide_rules.specs.Seen.{decision_of};

use crate::tree::{build, conditions};
use decide_rules::{DecideFault, Decision};
use mc_limits::MOST_CONDITIONS;
use mc_typed::{Expression, Span};
use std::alloc::{AllocError, Global};

/// How many conditions a decision has at most.
const MOST: u32 = MOST_CONDITIONS;

/// The decisions that were found so far, up to the first that is too large.
#[derive(Drop)]
pub struct Gathered {
    pub alloc: Global,
    /// The number of the function in whose body the walk is.
    pub function: u32,
    pub decisions: Vec<Decision>,
    /// What is wrong with the first that is too large.
    pub fault: Option<DecideFault>,
}

/// Nothing yet.
pub fn nothing(alloc: Global) -> Gathered
    ensures { gathered_of result ≡ begun }
{
    Gathered {
        alloc,
        function: 0,
        decisions: Vec::new(alloc),
        fault: None,
    }
}

/// How much was found at some time.
#[derive(Clone, Copy)]
pub struct Mark {
    pub count: usize,
    pub fault: Option<DecideFault>,
}

/// How much is found now.
pub fn mark_of(found: &Gathered) -> Mark
    ensures count { result.count ≡ length (gathered_of found.now).decisions }
    ensures fault { result.fault ≡ found.now.fault }
{
    Mark {
        count: found.decisions.len(),
        fault: found.fault,
    }
}

/// Drops what was found since then, where it stands in a constant.
pub fn settle(found: &mut Gathered, before: Mark, constant: bool)
    ensures { gathered_of found.new
        ≡ (if constant then cut before.count before.fault (gathered_of found.old)
        else gathered_of found.old) }
{
    if constant {
        shrink(found, before);
    }
}

fn shrink(found: &mut Gathered, before: Mark)
    ensures { gathered_of found.new ≡ cut before.count before.fault (gathered_of found.old) }
{
    shorten(&mut found.decisions, before.count);
    found.fault = before.fault;
}

fn shorten(decisions: &mut Vec<Decision>, count: usize)
    ensures { map decision_of decisions.new.items
        ≡ take count (map decision_of decisions.old.items) }
{
    decisions.truncate(count);
}

/// Adds the decision with this root.
pub(crate) fn add(found: &mut Gathered, root: &Expression) -> Result<(), AllocError>
    ensures { IfOk result (λ _. gathered_of found.new
        ≡ added found.old.fault (nodes.expression (expression_of root.now))
        (gathered_of found.old)) }
{
    match found.fault {
        Some(_) => Ok(()),
        None => add_first(found, root),
    }
}

/// Adds the decision with this root, where none before it is too large.
fn add_first(found: &mut Gathered, root: &Expression) -> Result<(), AllocError>
    ensures { IfOk result (λ _. gathered_of found.new
        ≡ added None (nodes.expression (expression_of root.now)) (gathered_of found.old)) }
{
    let count = conditions(root);
    if count > MOST {
        stop(found, span_of(root).start, count);
        Ok(())
    } else {
        add_small(found, root)
    }
}

/// Notes the first that is too large.
fn stop(found: &mut Gathered, at: u32, count: u32)
    ensures { gathered_of found.new ≡ stopped at count (gathered_of found.old) }
{
    found.fault = Some(DecideFault::TooManyConditions { at, count });
}

fn add_small(found: &mut Gathered, root: &Expression) -> Result<(), AllocError>
    requires { width (nodes.expression (expression_of root.now)) ≤ most_conditions }
    ensures { IfOk result (λ _. gathered_of found.new
        ≡ grown (nodes.expression (expression_of root.now)) (gathered_of found.old)) }
{
    let decision = decide(found.alloc, found.function, root)?;
    put(&mut found.decisions, decision)
}

fn put(decisions: &mut Vec<Decision>, decision: Decision) -> Result<(), AllocError>
    ensures { IfOk result (λ _. decisions.new.items ≡ decisions.old.items ++ decision ∷ []) }
{
    decisions.push(decision)?;
    Ok(())
}

/// The decision with this root.
fn decide(alloc: Global, function: u32, root: &Expression) -> Result<Decision, AllocError>
    requires { width (nodes.expression (expression_of root.now)) ≤ most_conditions }
    ensures { IfOk result (λ d.
        decision_of d ≡ decision function (nodes.expression (expression_of root.now))) }
{
    let mut conditions = Vec::new(alloc);
    let tree = build(alloc, root, &mut conditions)?;
    Ok(Decision {
        root: span_of(root),
        function,
        tree,
        conditions,
    })
}

/// Where a root stands.
fn span_of(root: &Expression) -> Span
    ensures { result ≡ nodes.span_of (nodes.expression (expression_of root.now)) }
{
    root.span()
}

/// What was found, or why it is refused.
pub fn answer(found: Gathered) -> Result<Vec<Decision>, DecideFault>
    ensures decisions { IfOk result (λ ds. found.fault ≡ None × ds ≡ found.decisions) }
    ensures refused { IfErr result (λ fault. found.fault ≡ Some fault) }
{
    let Gathered {
        decisions,
        fault,
        ..
    } = found;
    match fault {
        None => Ok(decisions),
        Some(fault) => {
            drop(decisions);
            Err(fault)
        }
    }
}
