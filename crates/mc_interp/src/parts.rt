//! The parts of statements that hold no statements.
ghost use Rattle.std.specs.Prelude.{◌≡◌, ◌+◌, ◌≤◌, Some, map, option_map, IfSome};
ghost use Rattle.mc_typed.specs.Sound.{AreDeclarators, IsReturn, IsTest};
ghost use Rattle.mc_typed.specs.Views as plain;
ghost use Rattle.mc_steps.specs.Points.{initializes};
ghost use Rattle.mc_steps.specs.Runs.{spends};
ghost use Rattle.mc_steps.specs.Statements as steps;
ghost use Rattle.mc_probe.specs.Erase.{erase_declarator, erase_effect, erase_expression};
ghost use Rattle.mc_probe.specs.Flat.{hits_some};
ghost use Rattle.mc_probe.specs.Statements as does;
ghost use Rattle.mc_probe.specs.Views as view;
ghost use Rattle.mc_probe.specs.WellFormed.{FitDeclarators, FitsEffect, FitsReturn, FitsStart, FitsTest};
ghost use Rattle.mc_interp.specs.Bodies.{counts_of, flow_of, IsAnyStart, IsGivenFor, IsReturned};
ghost use Rattle.mc_interp.specs.Bodies as bodies;
ghost use Rattle.mc_interp.specs.Effects.{IsAnyEffect};
ghost use Rattle.mc_interp.specs.Stores.{given_of, state_of, Did};
ghost use Rattle.mc_interp.specs.Frames.{activation_of, scope_in, IsReady};
ghost use Rattle.mc_interp.specs.Calls.{Invokes};
ghost use Rattle.mc_interp.specs.Views as prepared;
ghost use Rattle.mc_interp.specs.Keeps.{KeepsBits, KeepsLimits, KeepsRows, KeepsRowsForAll};

use crate::asked::tested;
use crate::effects::effects;
use crate::expressions::{structure, value};
use crate::frame::{Called, Frame};
use crate::initializers::declarators;
use crate::performed::perform;
use crate::prepared::{Prepared, Step, Test};
use crate::store::Store;
use crate::values::Given;
use hit_sink::Probe;
use interp_steps::{Flow, hit, hit_after, spend_for};
use mc_typed::{Declarator, Ending, ForStart, ReturnValue};

/// Whether a declaration has an initializer.
fn initializes(declarators: &[Declarator]) -> bool
    ensures { result
        ≡ initializes (map erase_declarator (map view.declarator_of declarators.now)) }
{
    for declared in declarators {
        if declared.value.is_some() {
            return true;
        }
    }
    false
}

/// The bit of a counted statement, where it has one.
pub(crate) fn count_of(tree: &Prepared<'_>) -> Option<Option<u32>>
    ensures { result ≡ bodies.counted_bit (prepared.statement_of tree.now) }
{
    match tree {
        Prepared::Compound { .. } | Prepared::Label { .. } => None,
        Prepared::Declaration {
            declarators,
            bit,
            ..
        } => {
            if initializes(declarators) {
                Some(*bit)
            } else {
                None
            }
        }
        Prepared::Null { bit, .. }
        | Prepared::Effect { bit, .. }
        | Prepared::If { bit, .. }
        | Prepared::IfElse { bit, .. }
        | Prepared::Switch { bit, .. }
        | Prepared::For { bit, .. }
        | Prepared::DoWhile { bit, .. }
        | Prepared::Break { bit, .. }
        | Prepared::Continue { bit, .. }
        | Prepared::Return { bit, .. } => Some(*bit),
    }
}

/// A bit is hit where there is one.
pub(crate) fn hit_some<P: Probe>(
    bit: Option<u32>,
    frame: &Frame<'_, '_, '_>,
    store: &Store,
    probe: &mut P,
)
    requires bits { frame.now.program.now.bits ≤ P.bits probe.old }
    ensures did { Did P.leads (hits_some (activation_of frame.now) bit (state_of store.now))
        (Some tt) store.now probe.old probe.new }
    ensures bits { KeepsBits P.bits probe.old probe.new }
{
    let _ = store;
    if let Some(there) = bit {
        hit(frame.program.bits(), there, probe);
    }
}

/// A unit is spent for a counted statement, and its bit is hit.
#[tactic(auto, unfolding(crate::specs::Stores::limits_of))]
#[inline(always)]
pub(crate) fn counted<P: Probe>(
    count: Option<Option<u32>>,
    frame: &Frame<'_, '_, '_>,
    store: &mut Store,
    probe: &mut P,
) -> Option<()>
    requires bits { frame.now.program.now.bits ≤ P.bits probe.old }
    ensures did { Did P.leads (counts_of (activation_of frame.now) count (state_of store.old))
        result store.new probe.old probe.new }
    ensures kept { KeepsRowsForAll store.old store.new }
    ensures bits { KeepsBits P.bits probe.old probe.new }
    ensures limits { KeepsLimits store.old store.new }
{
    match count {
        Some(bit) => {
            if spend_for(&mut store.fuel, frame.program.bits(), bit, probe) {
                Some(())
            } else {
                store.ending = Ending::Fuel;
                None
            }
        }
        None => Some(()),
    }
}

/// A declaration.
pub(crate) fn declaration<
    P: Probe,
    F: Fn(Called<'_, '_, '_>, &mut Store, &mut P) -> Option<()> + Copy,
>(
    trees: &[Declarator],
    frame: &Frame<'_, '_, '_>,
    invoke: F,
    store: &mut Store,
    probe: &mut P,
) -> Option<Flow>
    requires sound { AreDeclarators (map plain.declarator_of trees.now) (scope_in frame.now) }
    requires fits { FitDeclarators frame.now.function.now.registers
        (map view.declarator_of trees.now) }
    requires ready { IsReady frame.now store.old (P.bits probe.old) }
    requires invokes { Invokes frame.now P.bits P.leads (F.pre invoke) (F.post invoke) }
    ensures did { Did P.leads (steps.effect_does (does.declare (activation_of frame.now)
        (map view.declarator_of trees.now)) (state_of store.old))
        (option_map (λ flow. flow_of flow store.new) result) store.new probe.old probe.new }
    ensures typed { IfSome result (λ flow. IsReturned (scope_in frame.now)
        (activation_of frame.now) flow store.new.given) }
    ensures kept { KeepsRows frame.now result store.old store.new }
    ensures bits { KeepsBits P.bits probe.old probe.new }
    ensures limits { KeepsLimits store.old store.new }
{
    declarators(trees, frame, invoke, store, probe)?;
    Some(Flow::Completed)
}

/// An expression statement.
#[inline(always)]
pub(crate) fn effect_statement<
    P: Probe,
    F: Fn(Called<'_, '_, '_>, &mut Store, &mut P) -> Option<()> + Copy,
>(
    step: &Step<'_>,
    frame: &Frame<'_, '_, '_>,
    invoke: F,
    store: &mut Store,
    probe: &mut P,
) -> Option<Flow>
    requires sound { IsAnyEffect (erase_effect (prepared.effect_of step.now)) (scope_in frame.now) }
    requires fits { FitsEffect frame.now.function.now.registers (prepared.effect_of step.now) }
    requires ready { IsReady frame.now store.old (P.bits probe.old) }
    requires invokes { Invokes frame.now P.bits P.leads (F.pre invoke) (F.post invoke) }
    ensures did { Did P.leads (steps.effect_does (does.perform (activation_of frame.now)
        (prepared.effect_of step.now)) (state_of store.old))
        (option_map (λ flow. flow_of flow store.new) result) store.new probe.old probe.new }
    ensures typed { IfSome result (λ flow. IsReturned (scope_in frame.now)
        (activation_of frame.now) flow store.new.given) }
    ensures kept { KeepsRows frame.now result store.old store.new }
    ensures bits { KeepsBits P.bits probe.old probe.new }
    ensures limits { KeepsLimits store.old store.new }
{
    perform(step, frame, invoke, store, probe)?;
    Some(Flow::Completed)
}

/// The first part of a `for`.
pub(crate) fn for_start<
    P: Probe,
    F: Fn(Called<'_, '_, '_>, &mut Store, &mut P) -> Option<()> + Copy,
>(
    tree: &ForStart,
    frame: &Frame<'_, '_, '_>,
    invoke: F,
    store: &mut Store,
    probe: &mut P,
) -> Option<()>
    requires sound { IsAnyStart (plain.start_of tree.now) (scope_in frame.now) }
    requires fits { FitsStart frame.now.function.now.registers (view.start_of tree.now) }
    requires ready { IsReady frame.now store.old (P.bits probe.old) }
    requires invokes { Invokes frame.now P.bits P.leads (F.pre invoke) (F.post invoke) }
    ensures did { Did P.leads (does.start_loop (activation_of frame.now) (view.start_of tree.now)
        (state_of store.old)) result store.new probe.old probe.new }
    ensures kept { KeepsRows frame.now result store.old store.new }
    ensures bits { KeepsBits P.bits probe.old probe.new }
    ensures limits { KeepsLimits store.old store.new }
{
    match tree {
        ForStart::Effects { effects: clauses } => effects(clauses, frame, invoke, store, probe),
        ForStart::Declaration {
            declarators: declared,
        } => declarators(declared, frame, invoke, store, probe),
    }
}

/// The test of a loop, where it has one.
pub(crate) fn lent_test<'s, 'p>(test: &'s Option<Test<'p>>) -> Option<&'s Test<'p>>
    ensures { option_map (λ e. prepared.test_of e.now) result
        ≡ option_map prepared.test_of test.now }
{
    match test {
        Some(asked) => Some(asked),
        None => None,
    }
}

/// The test of a loop, which is true where it is absent.
fn test_of<P: Probe, F: Fn(Called<'_, '_, '_>, &mut Store, &mut P) -> Option<()> + Copy>(
    test: Option<&Test<'_>>,
    frame: &Frame<'_, '_, '_>,
    invoke: F,
    store: &mut Store,
    probe: &mut P,
) -> Option<bool>
    requires sound { IsTest (option_map erase_expression (option_map (λ e. prepared.test_of e.now)
        test)) (scope_in frame.now) }
    requires fits { FitsTest frame.now.function.now.registers
        (option_map (λ e. prepared.test_of e.now) test) }
    requires ready { IsReady frame.now store.old (P.bits probe.old) }
    requires invokes { Invokes frame.now P.bits P.leads (F.pre invoke) (F.post invoke) }
    ensures did { Did P.leads (does.loop_test (activation_of frame.now)
        (option_map (λ e. prepared.test_of e.now) test.entry) (state_of store.old)) result
        store.new probe.old probe.new }
    ensures kept { KeepsRows frame.now result store.old store.new }
    ensures bits { KeepsBits P.bits probe.old probe.new }
    ensures limits { KeepsLimits store.old store.new }
{
    match test {
        Some(asked) => tested(asked, frame, invoke, store, probe),
        None => Some(true),
    }
}

/// A turn of a loop begins: a unit is spent, and then the test is evaluated.
pub(crate) fn turn_begins<
    P: Probe,
    F: Fn(Called<'_, '_, '_>, &mut Store, &mut P) -> Option<()> + Copy,
>(
    test: Option<&Test<'_>>,
    frame: &Frame<'_, '_, '_>,
    invoke: F,
    store: &mut Store,
    probe: &mut P,
) -> Option<bool>
    requires sound { IsTest (option_map erase_expression (option_map (λ e. prepared.test_of e.now)
        test)) (scope_in frame.now) }
    requires fits { FitsTest frame.now.function.now.registers
        (option_map (λ e. prepared.test_of e.now) test) }
    requires ready { IsReady frame.now store.old (P.bits probe.old) }
    requires invokes { Invokes frame.now P.bits P.leads (F.pre invoke) (F.post invoke) }
    ensures did { Did P.leads (spends (does.loop_test (activation_of frame.now)
        (option_map (λ e. prepared.test_of e.now) test.entry)) (state_of store.old)) result
        store.new probe.old probe.new }
    ensures less { IfSome result (λ _. store.new.fuel + 1 ≤ store.old.fuel) }
    ensures kept { KeepsRows frame.now result store.old store.new }
    ensures bits { KeepsBits P.bits probe.old probe.new }
    ensures limits { KeepsLimits store.old store.new }
{
    store.spend()?;
    test_of(test, frame, invoke, store, probe)
}

/// The value of a `return`, which is kept.
fn return_value<P: Probe, F: Fn(Called<'_, '_, '_>, &mut Store, &mut P) -> Option<()> + Copy>(
    tree: &ReturnValue,
    frame: &Frame<'_, '_, '_>,
    invoke: F,
    store: &mut Store,
    probe: &mut P,
) -> Option<()>
    requires sound { IsReturn (plain.return_value_of tree.now) (scope_in frame.now).result
        (scope_in frame.now) }
    requires fits { FitsReturn frame.now.function.now.registers (view.return_value_of tree.now) }
    requires ready { IsReady frame.now store.old (P.bits probe.old) }
    requires invokes { Invokes frame.now P.bits P.leads (F.pre invoke) (F.post invoke) }
    ensures did { Did P.leads (does.returned (activation_of frame.now)
        (view.return_value_of tree.now) (state_of store.old))
        (option_map (λ _. given_of store.new.given) result) store.new probe.old probe.new }
    ensures typed { IfSome result (λ _. IsGivenFor (scope_in frame.now) (activation_of frame.now)
        (scope_in frame.now).result store.new.given) }
    ensures kept { KeepsRows frame.now result store.old store.new }
    ensures bits { KeepsBits P.bits probe.old probe.new }
    ensures limits { KeepsLimits store.old store.new }
{
    match tree {
        ReturnValue::Nothing => {
            store.keep(Given::Nothing);
            Some(())
        }
        ReturnValue::Number { value: e } => {
            let word = value(e, frame, invoke, store, probe)?;
            store.keep(Given::Number {
                of: e.integer_type(),
                word,
            });
            Some(())
        }
        ReturnValue::Structure {
            value: source,
            cells,
        } => {
            let at = structure(source, frame, invoke, store, probe)?;
            store.keep(Given::Structure { at, cells: *cells });
            Some(())
        }
    }
}

/// A `return`: its value, and then its exit.
pub(crate) fn return_statement<
    P: Probe,
    F: Fn(Called<'_, '_, '_>, &mut Store, &mut P) -> Option<()> + Copy,
>(
    tree: &ReturnValue,
    exit: Option<u32>,
    frame: &Frame<'_, '_, '_>,
    invoke: F,
    store: &mut Store,
    probe: &mut P,
) -> Option<Flow>
    requires sound { IsReturn (plain.return_value_of tree.now) (scope_in frame.now).result
        (scope_in frame.now) }
    requires fits { FitsReturn frame.now.function.now.registers (view.return_value_of tree.now) }
    requires ready { IsReady frame.now store.old (P.bits probe.old) }
    requires invokes { Invokes frame.now P.bits P.leads (F.pre invoke) (F.post invoke) }
    ensures did { Did P.leads (does.exit_does (activation_of frame.now) exit
        (does.returned (activation_of frame.now) (view.return_value_of tree.now))
        (state_of store.old)) (option_map (λ flow. flow_of flow store.new) result) store.new
        probe.old probe.new }
    ensures typed { IfSome result (λ flow. IsReturned (scope_in frame.now)
        (activation_of frame.now) flow store.new.given) }
    ensures kept { KeepsRows frame.now result store.old store.new }
    ensures bits { KeepsBits P.bits probe.old probe.new }
    ensures limits { KeepsLimits store.old store.new }
{
    let outcome = return_value(tree, frame, invoke, store, probe);
    hit_after(outcome.is_some(), frame.program.bits(), exit, probe);
    match outcome {
        Some(()) => Some(Flow::Left),
        None => None,
    }
}
