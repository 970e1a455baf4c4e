//! Expression statements and third parts of `for` (C17 6.8.3, 6.8.5.3). Assignments of a leaf to an
//! object of the activation need no walk of the tree.
ghost use Rattle.std.specs.Prelude.{map};
ghost use Rattle.mc_probe.specs.Erase.{erase_effect};
ghost use Rattle.mc_probe.specs.Statements as does;
ghost use Rattle.mc_probe.specs.WellFormed.{FitEffects, FitsEffect};
ghost use Rattle.mc_interp.specs.Calls.{Invokes};
ghost use Rattle.mc_interp.specs.Effects.{AreAnyEffects, IsAnyEffect};
ghost use Rattle.mc_interp.specs.Frames.{activation_of, scope_in, IsReady};
ghost use Rattle.mc_interp.specs.Stores.{state_of, Did};
ghost use Rattle.mc_interp.specs.Views as prepared;
ghost use Rattle.mc_interp.specs.Keeps.{KeepsBits, KeepsLimits, KeepsRows};

use crate::asked::leaf;
use crate::effects::effect;
use crate::frame::{Called, Frame};
use crate::prepared::Step;
use crate::store::Store;
use hit_sink::Probe;
use mc_typed::Operator;
use mc_value::{BinOp, IntType};

/// A step is evaluated for its effect. It stays a function of its own: the operators of a compound
/// assignment are much code.
#[inline(never)]
pub(crate) fn perform<P: Probe, F: Fn(Called<'_, '_, '_>, &mut Store, &mut P) -> Option<()> + Copy>(
    step: &Step<'_>,
    frame: &Frame<'_, '_, '_>,
    invoke: F,
    store: &mut Store,
    probe: &mut P,
) -> Option<()>
    requires sound { IsAnyEffect (erase_effect (prepared.effect_of step.now)) (scope_in frame.now) }
    requires fits { FitsEffect frame.now.function.now.registers (prepared.effect_of step.now) }
    requires ready { IsReady frame.now store.old (P.bits probe.old) }
    requires invokes { Invokes frame.now P.bits P.leads (F.pre invoke) (F.post invoke) }
    ensures did { Did P.leads (does.perform (activation_of frame.now)
        (prepared.effect_of step.now) (state_of store.old)) result store.new probe.old probe.new }
    ensures kept { KeepsRows frame.now result store.old store.new }
    ensures bits { KeepsBits P.bits probe.old probe.new }
    ensures limits { KeepsLimits store.old store.new }
{
    match step {
        Step::Add { slot, right, .. } => {
            let added = leaf(right, frame, store)?;
            store.update(
                frame.base + slot.start,
                IntType::Int,
                Operator::Binary(BinOp::Add),
                IntType::Int,
                added,
            )
        }
        Step::Assign {
            slot,
            of,
            right,
            ..
        } => {
            let assigned = leaf(right, frame, store)?;
            store.write(frame.base + slot.start, *of, assigned);
            Some(())
        }
        Step::Update {
            slot,
            of,
            operator,
            common,
            right,
            ..
        } => {
            let operand = leaf(right, frame, store)?;
            store.update(frame.base + slot.start, *of, *operator, *common, operand)
        }
        Step::Walked { tree } => effect(tree, frame, invoke, store, probe),
    }
}

/// Steps are evaluated, one after the other.
pub(crate) fn perform_all<
    P: Probe,
    F: Fn(Called<'_, '_, '_>, &mut Store, &mut P) -> Option<()> + Copy,
>(
    steps: &[Step<'_>],
    frame: &Frame<'_, '_, '_>,
    invoke: F,
    store: &mut Store,
    probe: &mut P,
) -> Option<()>
    requires sound { AreAnyEffects (map erase_effect (map prepared.effect_of steps.now))
        (scope_in frame.now) }
    requires fits { FitEffects frame.now.function.now.registers
        (map prepared.effect_of steps.now) }
    requires ready { IsReady frame.now store.old (P.bits probe.old) }
    requires invokes { Invokes frame.now P.bits P.leads (F.pre invoke) (F.post invoke) }
    ensures did { Did P.leads (does.perform_all (activation_of frame.now)
        (map prepared.effect_of steps.now) (state_of store.old)) result store.new probe.old
        probe.new }
    ensures kept { KeepsRows frame.now result store.old store.new }
    ensures bits { KeepsBits P.bits probe.old probe.new }
    ensures limits { KeepsLimits store.old store.new }
{
    for step in steps {
        perform(step, frame, invoke, store, probe)?;
    }
    Some(())
}
