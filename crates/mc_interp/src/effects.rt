//! Effects: what is evaluated for what it does (C17 6.5.16, 6.8.3).
ghost use Rattle.std.specs.Prelude.{◌≡◌, ◌<◌, ◌≤◌, Some, length, map, option_map};
ghost use Rattle.mc_limits.specs.Limits.{most_run_outputs};
ghost use Rattle.mc_typed.specs.Layout.{Scalar, cells as cells_of};
ghost use Rattle.mc_typed.specs.Views as plain;
ghost use Rattle.mc_typed.specs.Sound.{place_type, structure_type, type_of, HasOperands, IsExpression, IsPlace, IsStructure};
ghost use Rattle.mc_value.specs.declared.int_type.IntType.{IntType};
ghost use Rattle.interp_words.specs.Words.{number_of, Holds};
ghost use Rattle.mc_steps.specs.Expressions as steps;
ghost use Rattle.mc_steps.specs.Runs.{spends};
ghost use Rattle.mc_probe.specs.Flat.{flat};
ghost use Rattle.mc_probe.specs.Tree as tree;
ghost use Rattle.mc_probe.specs.Expressions as does;
ghost use Rattle.mc_probe.specs.Statements as effects;
ghost use Rattle.mc_probe.specs.Views as view;
ghost use Rattle.mc_probe.specs.WellFormed.{Fits, FitEffects, FitsCall, FitsEffect, FitsPlace, FitsStructure};
ghost use Rattle.mc_interp.specs.Stores.{state_of, told, Did};
ghost use Rattle.mc_interp.specs.Effects.{appends, AreAnyEffects, IsAnyEffect};
ghost use Rattle.mc_interp.specs.Frames.{activation_of, scope_in, IsReady};
ghost use Rattle.mc_interp.specs.Calls.{Invokes};
ghost use Rattle.mc_interp.specs.Typed.{IsAnyCall};
ghost use Rattle.mc_interp.specs.Keeps.{KeepsBits, KeepsLimits, KeepsRows, KeepsRowsForAll};

use crate::expressions::{call, place, structure, truth, value};
use crate::frame::{Called, Frame};
use crate::store::Store;
use hit_sink::Probe;
use mc_limits::MOST_RUN_OUTPUTS;
use mc_typed::{Effect, Ending, Expression, FunctionCall, Operator, Place, Structure};
use mc_value::IntType;

/// A scalar gets a value (C17 6.5.16.1).
fn assign<P: Probe, F: Fn(Called<'_, '_, '_>, &mut Store, &mut P) -> Option<()> + Copy>(
    target: &Place,
    of: IntType,
    right: &Expression,
    frame: &Frame<'_, '_, '_>,
    invoke: F,
    store: &mut Store,
    probe: &mut P,
) -> Option<()>
    requires target { IsPlace (plain.place_of target.now) (scope_in frame.now) }
    requires target_type { place_type (scope_in frame.now) (plain.place_of target.now)
        ≡ Some (Scalar of) }
    requires value { IsExpression (plain.expression_of right.now) (scope_in frame.now) }
    requires value_type { type_of (plain.expression_of right.now) ≡ of }
    requires target_fits { FitsPlace frame.now.function.now.registers (view.place_of target.now) }
    requires value_fits { Fits frame.now.function.now.registers (view.expression_of right.now) }
    requires ready { IsReady frame.now store.old (P.bits probe.old) }
    requires invokes { Invokes frame.now P.bits P.leads (F.pre invoke) (F.post invoke) }
    ensures did { Did P.leads (steps.assign_does flat
        (does.evaluate_place (activation_of frame.now) (view.place_of target.now))
        (does.evaluate (activation_of frame.now) (view.expression_of right.now))
        (state_of store.old)) result store.new probe.old probe.new }
    ensures kept { KeepsRows frame.now result store.old store.new }
    ensures bits { KeepsBits P.bits probe.old probe.new }
    ensures limits { KeepsLimits store.old store.new }
{
    let at = place(target, frame, invoke, store, probe)?;
    let word = value(right, frame, invoke, store, probe)?;
    store.write(at, of, word);
    Some(())
}

/// A compound assignment: the old value is read last (C17 6.5.16.2).
fn update<P: Probe, F: Fn(Called<'_, '_, '_>, &mut Store, &mut P) -> Option<()> + Copy>(
    target: &Place,
    of: IntType,
    operator: Operator,
    common: IntType,
    right: &Expression,
    frame: &Frame<'_, '_, '_>,
    invoke: F,
    store: &mut Store,
    probe: &mut P,
) -> Option<()>
    requires target { IsPlace (plain.place_of target.now) (scope_in frame.now) }
    requires target_type { place_type (scope_in frame.now) (plain.place_of target.now)
        ≡ Some (Scalar of) }
    requires value { IsExpression (plain.expression_of right.now) (scope_in frame.now) }
    requires operands { HasOperands operator common common
        (type_of (plain.expression_of right.now)) }
    requires target_fits { FitsPlace frame.now.function.now.registers (view.place_of target.now) }
    requires value_fits { Fits frame.now.function.now.registers (view.expression_of right.now) }
    requires ready { IsReady frame.now store.old (P.bits probe.old) }
    requires invokes { Invokes frame.now P.bits P.leads (F.pre invoke) (F.post invoke) }
    ensures did { Did P.leads (steps.update_does flat of operator common
        (does.evaluate_place (activation_of frame.now) (view.place_of target.now))
        (does.evaluate (activation_of frame.now) (view.expression_of right.now))
        (state_of store.old)) result store.new probe.old probe.new }
    ensures kept { KeepsRows frame.now result store.old store.new }
    ensures bits { KeepsBits P.bits probe.old probe.new }
    ensures limits { KeepsLimits store.old store.new }
{
    let at = place(target, frame, invoke, store, probe)?;
    let word = value(right, frame, invoke, store, probe)?;
    store.update(at, of, operator, common, word)
}

/// A structure is copied (C17 6.5.16.1).
fn copy<P: Probe, F: Fn(Called<'_, '_, '_>, &mut Store, &mut P) -> Option<()> + Copy>(
    target: &Place,
    right: &Structure,
    cells: u32,
    frame: &Frame<'_, '_, '_>,
    invoke: F,
    store: &mut Store,
    probe: &mut P,
) -> Option<()>
    requires target { IsPlace (plain.place_of target.now) (scope_in frame.now) }
    requires value { IsStructure (plain.structure_of right.now) (scope_in frame.now) }
    requires types { place_type (scope_in frame.now) (plain.place_of target.now)
        ≡ structure_type (scope_in frame.now) (plain.structure_of right.now) }
    requires cells { option_map cells_of
        (structure_type (scope_in frame.now) (plain.structure_of right.now)) ≡ Some cells }
    requires target_fits { FitsPlace frame.now.function.now.registers (view.place_of target.now) }
    requires value_fits { FitsStructure frame.now.function.now.registers
        (view.structure_of right.now) }
    requires ready { IsReady frame.now store.old (P.bits probe.old) }
    requires invokes { Invokes frame.now P.bits P.leads (F.pre invoke) (F.post invoke) }
    ensures did { Did P.leads (steps.copy_does flat cells
        (does.evaluate_place (activation_of frame.now) (view.place_of target.now))
        (does.evaluate_structure (activation_of frame.now) (view.structure_of right.now))
        (state_of store.old)) result store.new probe.old probe.new }
    ensures kept { KeepsRows frame.now result store.old store.new }
    ensures bits { KeepsBits P.bits probe.old probe.new }
    ensures limits { KeepsLimits store.old store.new }
{
    let at = place(target, frame, invoke, store, probe)?;
    let from = structure(right, frame, invoke, store, probe)?;
    store.copy(from, at, cells);
    Some(())
}

/// The value of an integer is dropped.
fn drop_value<P: Probe, F: Fn(Called<'_, '_, '_>, &mut Store, &mut P) -> Option<()> + Copy>(
    e: &Expression,
    frame: &Frame<'_, '_, '_>,
    invoke: F,
    store: &mut Store,
    probe: &mut P,
) -> Option<()>
    requires sound { IsExpression (plain.expression_of e.now) (scope_in frame.now) }
    requires fits { Fits frame.now.function.now.registers (view.expression_of e.now) }
    requires ready { IsReady frame.now store.old (P.bits probe.old) }
    requires invokes { Invokes frame.now P.bits P.leads (F.pre invoke) (F.post invoke) }
    ensures did { Did P.leads (steps.drop_does
        (does.evaluate (activation_of frame.now) (view.expression_of e.now))
        (state_of store.old)) result store.new probe.old probe.new }
    ensures kept { KeepsRows frame.now result store.old store.new }
    ensures bits { KeepsBits P.bits probe.old probe.new }
    ensures limits { KeepsLimits store.old store.new }
{
    value(e, frame, invoke, store, probe)?;
    Some(())
}

/// A structure is evaluated, and dropped.
fn drop_structure<P: Probe, F: Fn(Called<'_, '_, '_>, &mut Store, &mut P) -> Option<()> + Copy>(
    source: &Structure,
    frame: &Frame<'_, '_, '_>,
    invoke: F,
    store: &mut Store,
    probe: &mut P,
) -> Option<()>
    requires sound { IsStructure (plain.structure_of source.now) (scope_in frame.now) }
    requires fits { FitsStructure frame.now.function.now.registers
        (view.structure_of source.now) }
    requires ready { IsReady frame.now store.old (P.bits probe.old) }
    requires invokes { Invokes frame.now P.bits P.leads (F.pre invoke) (F.post invoke) }
    ensures did { Did P.leads (steps.drop_does
        (does.evaluate_structure (activation_of frame.now) (view.structure_of source.now))
        (state_of store.old)) result store.new probe.old probe.new }
    ensures kept { KeepsRows frame.now result store.old store.new }
    ensures bits { KeepsBits P.bits probe.old probe.new }
    ensures limits { KeepsLimits store.old store.new }
{
    structure(source, frame, invoke, store, probe)?;
    Some(())
}

/// A call is made, and what it gives is not used; it may give nothing.
fn drop_call<P: Probe, F: Fn(Called<'_, '_, '_>, &mut Store, &mut P) -> Option<()> + Copy>(
    made: &FunctionCall,
    frame: &Frame<'_, '_, '_>,
    invoke: F,
    store: &mut Store,
    probe: &mut P,
) -> Option<()>
    requires sound { IsAnyCall (plain.call_of made.now) (scope_in frame.now) }
    requires fits { FitsCall frame.now.function.now.registers (view.call_of made.now) }
    requires ready { IsReady frame.now store.old (P.bits probe.old) }
    requires invokes { Invokes frame.now P.bits P.leads (F.pre invoke) (F.post invoke) }
    ensures did { Did P.leads (steps.drop_does
        (does.evaluate_call (activation_of frame.now) (view.call_of made.now))
        (state_of store.old)) result store.new probe.old probe.new }
    ensures kept { KeepsRows frame.now result store.old store.new }
    ensures bits { KeepsBits P.bits probe.old probe.new }
    ensures limits { KeepsLimits store.old store.new }
{
    call(made, frame, invoke, store, probe)
}

/// An integer that is evaluated for what it does. The value of a whole call is not used.
fn number_effect<P: Probe, F: Fn(Called<'_, '_, '_>, &mut Store, &mut P) -> Option<()> + Copy>(
    e: &Expression,
    whole: bool,
    frame: &Frame<'_, '_, '_>,
    invoke: F,
    store: &mut Store,
    probe: &mut P,
) -> Option<()>
    requires sound { IsExpression (plain.expression_of e.now) (scope_in frame.now) }
    requires fits { Fits frame.now.function.now.registers (view.expression_of e.now) }
    requires ready { IsReady frame.now store.old (P.bits probe.old) }
    requires invokes { Invokes frame.now P.bits P.leads (F.pre invoke) (F.post invoke) }
    ensures did { Did P.leads (effects.perform (activation_of frame.now)
        (tree.NumberEffect (view.expression_of e.now) whole) (state_of store.old)) result
        store.new probe.old probe.new }
    ensures kept { KeepsRows frame.now result store.old store.new }
    ensures bits { KeepsBits P.bits probe.old probe.new }
    ensures limits { KeepsLimits store.old store.new }
{
    match e {
        Expression::Call { call: made, .. } if whole => {
            drop_call(made, frame, invoke, store, probe)
        }
        Expression::Call { .. }
        | Expression::Constant { .. }
        | Expression::Read { .. }
        | Expression::Unary { .. }
        | Expression::Convert { .. }
        | Expression::Not { .. }
        | Expression::Binary { .. }
        | Expression::Logic { .. }
        | Expression::Choice { .. }
        | Expression::Input { .. }
        | Expression::Probe { .. } => drop_value(e, frame, invoke, store, probe),
    }
}

/// The same of a structure.
fn structure_effect<P: Probe, F: Fn(Called<'_, '_, '_>, &mut Store, &mut P) -> Option<()> + Copy>(
    source: &Structure,
    whole: bool,
    frame: &Frame<'_, '_, '_>,
    invoke: F,
    store: &mut Store,
    probe: &mut P,
) -> Option<()>
    requires sound { IsStructure (plain.structure_of source.now) (scope_in frame.now) }
    requires fits { FitsStructure frame.now.function.now.registers
        (view.structure_of source.now) }
    requires ready { IsReady frame.now store.old (P.bits probe.old) }
    requires invokes { Invokes frame.now P.bits P.leads (F.pre invoke) (F.post invoke) }
    ensures did { Did P.leads (effects.perform (activation_of frame.now)
        (tree.StructureEffect (view.structure_of source.now) whole) (state_of store.old)) result
        store.new probe.old probe.new }
    ensures kept { KeepsRows frame.now result store.old store.new }
    ensures bits { KeepsBits P.bits probe.old probe.new }
    ensures limits { KeepsLimits store.old store.new }
{
    match source {
        Structure::Returned { call: made } if whole => {
            drop_call(made, frame, invoke, store, probe)
        }
        Structure::Returned { .. } | Structure::Stored { .. } => {
            drop_structure(source, frame, invoke, store, probe)
        }
    }
}

impl Store {
    /// A number goes to the end of the output, where there is room, or the run stops.
    #[tactic(auto, unfolding(crate::specs::Stores::limits_of))]
    fn append(&mut self, number: u64) -> Option<()>
        requires limit { self.old.output.limit ≡ most_run_outputs }
        requires typed { Holds IntType.Int number }
        ensures ran { appends (number_of IntType.Int number) (state_of self.old)
            ≡ told result self.new }
        ensures kept { KeepsRowsForAll self.old self.new }
        ensures limits { KeepsLimits self.old self.new }
    {
        if self.output.len() < MOST_RUN_OUTPUTS as usize {
            self.output.push(number.cast_signed() as i32);
            Some(())
        } else {
            self.ending = Ending::OutputFull;
            None
        }
    }

    /// The same after a unit of fuel.
    #[tactic(auto, unfolding(crate::specs::Stores::limits_of))]
    fn output(&mut self, number: u64) -> Option<()>
        requires limit { self.old.output.limit ≡ most_run_outputs }
        requires typed { Holds IntType.Int number }
        ensures ran { spends (appends (number_of IntType.Int number)) (state_of self.old)
            ≡ told result self.new }
        ensures kept { KeepsRowsForAll self.old self.new }
        ensures limits { KeepsLimits self.old self.new }
    {
        self.spend()?;
        self.append(number)
    }
}

/// The outside function that puts a number.
fn output<P: Probe, F: Fn(Called<'_, '_, '_>, &mut Store, &mut P) -> Option<()> + Copy>(
    e: &Expression,
    frame: &Frame<'_, '_, '_>,
    invoke: F,
    store: &mut Store,
    probe: &mut P,
) -> Option<()>
    requires sound { IsExpression (plain.expression_of e.now) (scope_in frame.now) }
    requires int { type_of (plain.expression_of e.now) ≡ IntType.Int }
    requires fits { Fits frame.now.function.now.registers (view.expression_of e.now) }
    requires ready { IsReady frame.now store.old (P.bits probe.old) }
    requires invokes { Invokes frame.now P.bits P.leads (F.pre invoke) (F.post invoke) }
    ensures did { Did P.leads (steps.output_does
        (does.evaluate (activation_of frame.now) (view.expression_of e.now))
        (state_of store.old)) result store.new probe.old probe.new }
    ensures kept { KeepsRows frame.now result store.old store.new }
    ensures bits { KeepsBits P.bits probe.old probe.new }
    ensures limits { KeepsLimits store.old store.new }
{
    let word = value(e, frame, invoke, store, probe)?;
    store.output(word)
}

/// What an effect does.
pub(crate) fn effect<P: Probe, F: Fn(Called<'_, '_, '_>, &mut Store, &mut P) -> Option<()> + Copy>(
    whole: &Effect,
    frame: &Frame<'_, '_, '_>,
    invoke: F,
    store: &mut Store,
    probe: &mut P,
) -> Option<()>
    requires sound { IsAnyEffect (plain.effect_of whole.now) (scope_in frame.now) }
    requires fits { FitsEffect frame.now.function.now.registers (view.effect_of whole.now) }
    requires ready { IsReady frame.now store.old (P.bits probe.old) }
    requires invokes { Invokes frame.now P.bits P.leads (F.pre invoke) (F.post invoke) }
    ensures did { Did P.leads (effects.perform (activation_of frame.now)
        (view.effect_of whole.now) (state_of store.old)) result store.new probe.old probe.new }
    ensures kept { KeepsRows frame.now result store.old store.new }
    ensures bits { KeepsBits P.bits probe.old probe.new }
    ensures limits { KeepsLimits store.old store.new }
{
    match whole {
        Effect::Assign {
            target,
            of,
            value: right,
            ..
        } => assign(target, *of, right, frame, invoke, store, probe),
        Effect::Update {
            target,
            of,
            operator,
            common,
            value: right,
            ..
        } => update(
            target, *of, *operator, *common, right, frame, invoke, store, probe,
        ),
        Effect::Copy {
            target,
            value: right,
            cells,
            ..
        } => copy(target, right, *cells, frame, invoke, store, probe),
        Effect::Number { value: e, whole } => {
            number_effect(e, *whole, frame, invoke, store, probe)
        }
        Effect::Structure { value, whole } => {
            structure_effect(value, *whole, frame, invoke, store, probe)
        }
        Effect::Call { call: made } => drop_call(made, frame, invoke, store, probe),
        Effect::Output { value: e, .. } => output(e, frame, invoke, store, probe),
        Effect::Choice {
            test,
            chosen,
            other,
            ..
        } => {
            if truth(test, frame, invoke, store, probe)? {
                effect(chosen, frame, invoke, store, probe)
            } else {
                effect(other, frame, invoke, store, probe)
            }
        }
        Effect::Discard { operand, .. } => effect(operand, frame, invoke, store, probe),
    }
}

/// What effects that follow each other do.
pub(crate) fn effects<P: Probe, F: Fn(Called<'_, '_, '_>, &mut Store, &mut P) -> Option<()> + Copy>(
    all: &[Effect],
    frame: &Frame<'_, '_, '_>,
    invoke: F,
    store: &mut Store,
    probe: &mut P,
) -> Option<()>
    requires sound { AreAnyEffects (map plain.effect_of all.now) (scope_in frame.now) }
    requires fits { FitEffects frame.now.function.now.registers (map view.effect_of all.now) }
    requires ready { IsReady frame.now store.old (P.bits probe.old) }
    requires invokes { Invokes frame.now P.bits P.leads (F.pre invoke) (F.post invoke) }
    ensures did { Did P.leads (effects.perform_all (activation_of frame.now)
        (map view.effect_of all.now) (state_of store.old)) result store.new
        probe.old probe.new }
    ensures kept { KeepsRows frame.now result store.old store.new }
    ensures bits { KeepsBits P.bits probe.old probe.new }
    ensures limits { KeepsLimits store.old store.new }
{
    for whole in all {
        effect(whole, frame, invoke, store, probe)?;
    }
    Some(())
}
