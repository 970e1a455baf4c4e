//! Statements (C17 6.8).
ghost use Rattle.std.specs.Prelude.{◌+◌, ◌≤◌, map, option_map, IfSome};
ghost use Rattle.mc_typed.specs.Sound.{IsTest};
ghost use Rattle.mc_steps.specs.Statements.{loop_does, Running};
ghost use Rattle.mc_probe.specs.Erase.{erase_effect, erase_expression, erase_statement, erase_statements};
ghost use Rattle.mc_probe.specs.Statements as does;
ghost use Rattle.mc_probe.specs.Views as view;
ghost use Rattle.mc_probe.specs.WellFormed.{FitEffects, FitStatements, FitsStatement, FitsTest};
ghost use Rattle.mc_interp.specs.Bodies.{act_of, end_of, flow_of, item_of, next_of, seek_of, turn_of, AreAnyStatements, IsAnyStatement, IsEnd, IsNext, IsReturned};
ghost use Rattle.mc_interp.specs.Effects.{AreAnyEffects};
ghost use Rattle.mc_interp.specs.Stores.{state_of, Did};
ghost use Rattle.mc_interp.specs.Frames.{activation_of, scope_in, IsReady};
ghost use Rattle.mc_interp.specs.Calls.{Invokes};
ghost use Rattle.mc_interp.specs.Views as prepared;
ghost use Rattle.mc_interp.specs.Keeps.{KeepsBits, KeepsLimits, KeepsRows};

use crate::asked::tested;
use crate::expressions::value;
use crate::flow::{Next, Seek, is_label, is_running, label_of, next_after};
use crate::frame::{Called, Frame};
use crate::labels::{at_label, sought, switch_ends};
use crate::parts::{
    count_of, counted, declaration, effect_statement, for_start, lent_test, return_statement,
    turn_begins,
};
use crate::performed::perform_all;
use crate::prepared::{Prepared, Step, Test};
use crate::store::Store;
use hit_sink::Probe;
use interp_steps::{Flow, loop_end};

/// The turns of a loop, from the next one on.
#[cycle(statements)]
fn repeat<P: Probe, F: Fn(Called<'_, '_, '_>, &mut Store, &mut P) -> Option<()> + Copy>(
    body: &Prepared<'_>,
    test: Option<&Test<'_>>,
    step: &[Step<'_>],
    frame: &Frame<'_, '_, '_>,
    invoke: F,
    store: &mut Store,
    probe: &mut P,
) -> Option<Flow>
    requires body { IsAnyStatement (erase_statement (prepared.statement_of body.now))
        (scope_in frame.now) }
    requires test { IsTest (option_map erase_expression (option_map (λ e. prepared.test_of e.now)
        test)) (scope_in frame.now) }
    requires step { AreAnyEffects (map erase_effect (map prepared.effect_of step.now))
        (scope_in frame.now) }
    requires body_fits { FitsStatement frame.now.function.now.registers
        (prepared.statement_of body.now) }
    requires test_fits { FitsTest frame.now.function.now.registers
        (option_map (λ e. prepared.test_of e.now) test) }
    requires step_fits { FitEffects frame.now.function.now.registers
        (map prepared.effect_of step.now) }
    requires ready { IsReady frame.now store.old (P.bits probe.old) }
    requires invokes { Invokes frame.now P.bits P.leads (F.pre invoke) (F.post invoke) }
    ensures did { Did P.leads (loop_does (does.loop_test (activation_of frame.now)
        (option_map (λ e. prepared.test_of e.now) test.entry))
        (does.run (activation_of frame.now) (prepared.statement_of body.now))
        (does.perform_all (activation_of frame.now) (map prepared.effect_of step.now))
        (state_of store.old))
        (option_map (λ flow. flow_of flow store.new) result) store.new probe.old probe.new }
    ensures typed { IfSome result (λ flow. IsReturned (scope_in frame.now)
        (activation_of frame.now) flow store.new.given) }
    ensures kept { KeepsRows frame.now result store.old store.new }
    ensures bits { KeepsBits P.bits probe.old probe.new }
    ensures limits { KeepsLimits store.old store.new }
{
    loop {
        let turned = turn(body, test, step, frame, invoke, store, probe)?;
        if let Some(flow) = turned {
            return Some(flow);
        }
    }
}

/// A turn of a loop. It gives nothing where another one follows, else how the loop ends.
#[cycle(statements)]
#[inline(always)]
fn turn<P: Probe, F: Fn(Called<'_, '_, '_>, &mut Store, &mut P) -> Option<()> + Copy>(
    body: &Prepared<'_>,
    test: Option<&Test<'_>>,
    step: &[Step<'_>],
    frame: &Frame<'_, '_, '_>,
    invoke: F,
    store: &mut Store,
    probe: &mut P,
) -> Option<Option<Flow>>
    requires body { IsAnyStatement (erase_statement (prepared.statement_of body.now))
        (scope_in frame.now) }
    requires test { IsTest (option_map erase_expression (option_map (λ e. prepared.test_of e.now)
        test)) (scope_in frame.now) }
    requires step { AreAnyEffects (map erase_effect (map prepared.effect_of step.now))
        (scope_in frame.now) }
    requires body_fits { FitsStatement frame.now.function.now.registers
        (prepared.statement_of body.now) }
    requires test_fits { FitsTest frame.now.function.now.registers
        (option_map (λ e. prepared.test_of e.now) test) }
    requires step_fits { FitEffects frame.now.function.now.registers
        (map prepared.effect_of step.now) }
    requires ready { IsReady frame.now store.old (P.bits probe.old) }
    requires invokes { Invokes frame.now P.bits P.leads (F.pre invoke) (F.post invoke) }
    ensures did { Did P.leads (turn_of (does.loop_test (activation_of frame.now)
        (option_map (λ e. prepared.test_of e.now) test.entry))
        (does.run (activation_of frame.now) (prepared.statement_of body.now))
        (does.perform_all (activation_of frame.now) (map prepared.effect_of step.now))
        (state_of store.old))
        (option_map (λ end. end_of end store.new) result) store.new probe.old probe.new }
    ensures typed { IfSome result (λ end. IsEnd (scope_in frame.now) (activation_of frame.now) end
        store.new.given) }
    ensures less { IfSome result (λ _. store.new.fuel + 1 ≤ store.old.fuel) }
    ensures kept { KeepsRows frame.now result store.old store.new }
    ensures bits { KeepsBits P.bits probe.old probe.new }
    ensures limits { KeepsLimits store.old store.new }
{
    let goes_on = turn_begins(test, frame, invoke, store, probe)?;
    if !goes_on {
        return Some(Some(Flow::Completed));
    }
    let flow = statement(body, frame, invoke, store, probe)?;
    if let Some(end) = loop_end(flow) {
        return Some(Some(end));
    }
    perform_all(step, frame, invoke, store, probe)?;
    Some(None)
}

/// What a statement does. Expression statements and compound ones, which most are, run without a
/// further call.
#[cycle(statements)]
#[inline(always)]
fn statement<P: Probe, F: Fn(Called<'_, '_, '_>, &mut Store, &mut P) -> Option<()> + Copy>(
    tree: &Prepared<'_>,
    frame: &Frame<'_, '_, '_>,
    invoke: F,
    store: &mut Store,
    probe: &mut P,
) -> Option<Flow>
    requires sound { IsAnyStatement (erase_statement (prepared.statement_of tree.now))
        (scope_in frame.now) }
    requires fits { FitsStatement frame.now.function.now.registers
        (prepared.statement_of tree.now) }
    requires ready { IsReady frame.now store.old (P.bits probe.old) }
    requires invokes { Invokes frame.now P.bits P.leads (F.pre invoke) (F.post invoke) }
    ensures did { Did P.leads (does.run (activation_of frame.now)
        (prepared.statement_of tree.now) (state_of store.old))
        (option_map (λ flow. flow_of flow store.new) result) store.new probe.old probe.new }
    ensures typed { IfSome result (λ flow. IsReturned (scope_in frame.now)
        (activation_of frame.now) flow store.new.given) }
    ensures kept { KeepsRows frame.now result store.old store.new }
    ensures bits { KeepsBits P.bits probe.old probe.new }
    ensures limits { KeepsLimits store.old store.new }
{
    match tree {
        Prepared::Compound { items, .. } => block(items, frame, invoke, store, probe),
        _ => simple(tree, frame, invoke, store, probe),
    }
}

/// The items of a compound statement. One alone, as most have, needs no search for labels.
#[cycle(statements)]
#[inline(always)]
fn block<P: Probe, F: Fn(Called<'_, '_, '_>, &mut Store, &mut P) -> Option<()> + Copy>(
    trees: &[Prepared<'_>],
    frame: &Frame<'_, '_, '_>,
    invoke: F,
    store: &mut Store,
    probe: &mut P,
) -> Option<Flow>
    requires sound { AreAnyStatements (erase_statements (view.statements_from
        (map prepared.statement_of trees.now))) (scope_in frame.now) }
    requires fits { FitStatements frame.now.function.now.registers
        (view.statements_from (map prepared.statement_of trees.now)) }
    requires ready { IsReady frame.now store.old (P.bits probe.old) }
    requires invokes { Invokes frame.now P.bits P.leads (F.pre invoke) (F.post invoke) }
    ensures did { Did P.leads (does.run_from (activation_of frame.now)
        (view.statements_from (map prepared.statement_of trees.now)) Running
        (state_of store.old))
        (option_map (λ flow. flow_of flow store.new) result) store.new probe.old probe.new }
    ensures typed { IfSome result (λ flow. IsReturned (scope_in frame.now)
        (activation_of frame.now) flow store.new.given) }
    ensures kept { KeepsRows frame.now result store.old store.new }
    ensures bits { KeepsBits P.bits probe.old probe.new }
    ensures limits { KeepsLimits store.old store.new }
{
    if let [only] = trees {
        if !is_label(only) {
            return simple(only, frame, invoke, store, probe);
        }
    }
    statements(trees, Seek::Running, frame, invoke, store, probe)
}

/// What a statement does, where expression statements alone run without a further call.
#[cycle(statements)]
#[inline(always)]
fn simple<P: Probe, F: Fn(Called<'_, '_, '_>, &mut Store, &mut P) -> Option<()> + Copy>(
    tree: &Prepared<'_>,
    frame: &Frame<'_, '_, '_>,
    invoke: F,
    store: &mut Store,
    probe: &mut P,
) -> Option<Flow>
    requires sound { IsAnyStatement (erase_statement (prepared.statement_of tree.now))
        (scope_in frame.now) }
    requires fits { FitsStatement frame.now.function.now.registers
        (prepared.statement_of tree.now) }
    requires ready { IsReady frame.now store.old (P.bits probe.old) }
    requires invokes { Invokes frame.now P.bits P.leads (F.pre invoke) (F.post invoke) }
    ensures did { Did P.leads (does.run (activation_of frame.now)
        (prepared.statement_of tree.now) (state_of store.old))
        (option_map (λ flow. flow_of flow store.new) result) store.new probe.old probe.new }
    ensures typed { IfSome result (λ flow. IsReturned (scope_in frame.now)
        (activation_of frame.now) flow store.new.given) }
    ensures kept { KeepsRows frame.now result store.old store.new }
    ensures bits { KeepsBits P.bits probe.old probe.new }
    ensures limits { KeepsLimits store.old store.new }
{
    match tree {
        Prepared::Effect { step, bit, .. } => {
            counted(Some(*bit), frame, store, probe)?;
            effect_statement(step, frame, invoke, store, probe)
        }
        _ => other(tree, frame, invoke, store, probe),
    }
}

/// The same, for every statement. It stays a function of its own, so that a statement that holds no
/// other costs no large frame.
#[cycle(statements)]
#[inline(never)]
fn other<P: Probe, F: Fn(Called<'_, '_, '_>, &mut Store, &mut P) -> Option<()> + Copy>(
    tree: &Prepared<'_>,
    frame: &Frame<'_, '_, '_>,
    invoke: F,
    store: &mut Store,
    probe: &mut P,
) -> Option<Flow>
    requires sound { IsAnyStatement (erase_statement (prepared.statement_of tree.now))
        (scope_in frame.now) }
    requires fits { FitsStatement frame.now.function.now.registers
        (prepared.statement_of tree.now) }
    requires ready { IsReady frame.now store.old (P.bits probe.old) }
    requires invokes { Invokes frame.now P.bits P.leads (F.pre invoke) (F.post invoke) }
    ensures did { Did P.leads (does.run (activation_of frame.now)
        (prepared.statement_of tree.now) (state_of store.old))
        (option_map (λ flow. flow_of flow store.new) result) store.new probe.old probe.new }
    ensures typed { IfSome result (λ flow. IsReturned (scope_in frame.now)
        (activation_of frame.now) flow store.new.given) }
    ensures kept { KeepsRows frame.now result store.old store.new }
    ensures bits { KeepsBits P.bits probe.old probe.new }
    ensures limits { KeepsLimits store.old store.new }
{
    counted(count_of(tree), frame, store, probe)?;
    act(tree, frame, invoke, store, probe)
}

/// What a statement does after its unit and its bit.
#[cycle(statements)]
fn act<P: Probe, F: Fn(Called<'_, '_, '_>, &mut Store, &mut P) -> Option<()> + Copy>(
    tree: &Prepared<'_>,
    frame: &Frame<'_, '_, '_>,
    invoke: F,
    store: &mut Store,
    probe: &mut P,
) -> Option<Flow>
    requires sound { IsAnyStatement (erase_statement (prepared.statement_of tree.now))
        (scope_in frame.now) }
    requires fits { FitsStatement frame.now.function.now.registers
        (prepared.statement_of tree.now) }
    requires ready { IsReady frame.now store.old (P.bits probe.old) }
    requires invokes { Invokes frame.now P.bits P.leads (F.pre invoke) (F.post invoke) }
    ensures did { Did P.leads (act_of (activation_of frame.now) (prepared.statement_of tree.now)
        (state_of store.old))
        (option_map (λ flow. flow_of flow store.new) result) store.new probe.old probe.new }
    ensures typed { IfSome result (λ flow. IsReturned (scope_in frame.now)
        (activation_of frame.now) flow store.new.given) }
    ensures kept { KeepsRows frame.now result store.old store.new }
    ensures bits { KeepsBits P.bits probe.old probe.new }
    ensures limits { KeepsLimits store.old store.new }
{
    match tree {
        Prepared::Compound { items, .. } => {
            statements(items, Seek::Running, frame, invoke, store, probe)
        }
        Prepared::Label { .. } => Some(Flow::Completed),
        Prepared::Declaration { declarators, .. } => {
            declaration(declarators, frame, invoke, store, probe)
        }
        Prepared::Null { .. } => Some(Flow::Completed),
        Prepared::Effect { step, .. } => { effect_statement(step, frame, invoke, store, probe) }
        Prepared::If { test, chosen, .. } => {
            let holds = tested(test, frame, invoke, store, probe)?;
            if holds {
                statement(chosen, frame, invoke, store, probe)
            } else {
                Some(Flow::Completed)
            }
        }
        Prepared::IfElse {
            test,
            chosen,
            other,
            ..
        } => {
            let is_true = tested(test, frame, invoke, store, probe)?;
            if is_true {
                statement(chosen, frame, invoke, store, probe)
            } else {
                statement(other, frame, invoke, store, probe)
            }
        }
        Prepared::Switch {
            value: controlling,
            items,
            absent,
            ..
        } => {
            let word = value(controlling, frame, invoke, store, probe)?;
            let seek = sought(items, controlling.integer_type(), word);
            let flow = statements(items, seek, frame, invoke, store, probe)?;
            Some(switch_ends(flow, *absent, frame, store, probe))
        }
        Prepared::For {
            start,
            test,
            step,
            body,
            ..
        } => {
            for_start(start, frame, invoke, store, probe)?;
            repeat(body, lent_test(test), step, frame, invoke, store, probe)
        }
        Prepared::DoWhile { body, test, .. } => {
            let ended = statement(body, frame, invoke, store, probe)?;
            match loop_end(ended) {
                Some(end) => Some(end),
                None => repeat(body, Some(test), &[], frame, invoke, store, probe),
            }
        }
        Prepared::Break { .. } => Some(Flow::Broke),
        Prepared::Continue { .. } => Some(Flow::Continued),
        Prepared::Return { value, exit, .. } => {
            return_statement(value, *exit, frame, invoke, store, probe)
        }
    }
}

/// The items of a body, of which those before a label that is sought are passed over.
#[cycle(statements)]
pub(crate) fn statements<
    P: Probe,
    F: Fn(Called<'_, '_, '_>, &mut Store, &mut P) -> Option<()> + Copy,
>(
    trees: &[Prepared<'_>],
    seek: Seek,
    frame: &Frame<'_, '_, '_>,
    invoke: F,
    store: &mut Store,
    probe: &mut P,
) -> Option<Flow>
    requires sound { AreAnyStatements (erase_statements (view.statements_from
        (map prepared.statement_of trees.now))) (scope_in frame.now) }
    requires fits { FitStatements frame.now.function.now.registers
        (view.statements_from (map prepared.statement_of trees.now)) }
    requires ready { IsReady frame.now store.old (P.bits probe.old) }
    requires invokes { Invokes frame.now P.bits P.leads (F.pre invoke) (F.post invoke) }
    ensures did { Did P.leads (does.run_from (activation_of frame.now)
        (view.statements_from (map prepared.statement_of trees.now)) (seek_of seek)
        (state_of store.old))
        (option_map (λ flow. flow_of flow store.new) result) store.new probe.old probe.new }
    ensures typed { IfSome result (λ flow. IsReturned (scope_in frame.now)
        (activation_of frame.now) flow store.new.given) }
    ensures kept { KeepsRows frame.now result store.old store.new }
    ensures bits { KeepsBits P.bits probe.old probe.new }
    ensures limits { KeepsLimits store.old store.new }
{
    let mut sought = seek;
    for tree in trees {
        let next = item(tree, sought, frame, invoke, store, probe)?;
        match next {
            Next::Item(following) => sought = following,
            Next::End(flow) => return Some(flow),
        }
    }
    Some(Flow::Completed)
}

/// An item of a body, and what follows it.
#[cycle(statements)]
fn item<P: Probe, F: Fn(Called<'_, '_, '_>, &mut Store, &mut P) -> Option<()> + Copy>(
    tree: &Prepared<'_>,
    seek: Seek,
    frame: &Frame<'_, '_, '_>,
    invoke: F,
    store: &mut Store,
    probe: &mut P,
) -> Option<Next>
    requires sound { IsAnyStatement (erase_statement (prepared.statement_of tree.now))
        (scope_in frame.now) }
    requires fits { FitsStatement frame.now.function.now.registers
        (prepared.statement_of tree.now) }
    requires ready { IsReady frame.now store.old (P.bits probe.old) }
    requires invokes { Invokes frame.now P.bits P.leads (F.pre invoke) (F.post invoke) }
    ensures did { Did P.leads (item_of (activation_of frame.now) (prepared.statement_of tree.now)
        (seek_of seek) (state_of store.old))
        (option_map (λ next. next_of next store.new) result) store.new probe.old probe.new }
    ensures typed { IfSome result (λ next. IsNext (scope_in frame.now) (activation_of frame.now)
        next store.new.given) }
    ensures kept { KeepsRows frame.now result store.old store.new }
    ensures bits { KeepsBits P.bits probe.old probe.new }
    ensures limits { KeepsLimits store.old store.new }
{
    if let Some(label) = label_of(tree) {
        return Some(Next::Item(at_label(label, seek, frame, store, probe)));
    }
    if !is_running(seek) {
        return Some(Next::Item(seek));
    }
    let flow = statement(tree, frame, invoke, store, probe)?;
    Some(next_after(flow))
}
