//! Calls of functions (C17 6.5.2.2, 6.9.1). None takes memory.
ghost use Rattle.std.specs.Prelude.{◌≡◌, ◌<◌, ◌≤◌, length, map, slice_get, Some, None, option_map, IfNone, IfSome};
ghost use Rattle.mc_typed.specs.declared.functions.Function.{Function};
ghost use Rattle.mc_typed.specs.Sound.{result_at, Scope};
ghost use Rattle.mc_steps.specs.Calls.{where_left};
ghost use Rattle.mc_steps.specs.Calls as steps;
ghost use Rattle.mc_probe.specs.Calls.{calls};
ghost use Rattle.mc_probe.specs.Trees.{tree_of};
ghost use Rattle.mc_probe.specs.Flat.{Activation, hits_some};
ghost use Rattle.mc_probe.specs.Views as view;
ghost use Rattle.mc_probe.specs.WellFormed.{FitStatements};
ghost use Rattle.mc_interp.specs.Bodies.{flow_of, IsGivenFor, IsReturned};
ghost use Rattle.mc_interp.specs.Calls.{callee_of, CallDid, CallKeeps, Invokes, IsCalled, IsResultOf};
ghost use Rattle.mc_interp.specs.Entries.{inside_of, HasLeft, IntoRoom, IsOpened};
ghost use Rattle.mc_interp.specs.Frames.{activation_of, scope_in, IsReady};
ghost use Rattle.mc_interp.specs.Stores.{given_of, lent_of, passed_of, state_of, told, Did};
ghost use Rattle.mc_interp.specs.Views as prepared;
ghost use Rattle.mc_interp.specs.Keeps.{KeepsBits, KeepsLimits, KeepsRowsForAll};

use crate::entries::{lend, levels_with, pass};
use crate::flow::{Seek, has_left};
use crate::frame::{Called, Frame};
use crate::parts::hit_some;
use crate::prepared::Prepared;
use crate::statements::statements;
use crate::store::Store;
use crate::values::{Given, Lent, Shape};
use arrayvec::ArrayVec;
use hit_sink::Probe;
use interp_steps::{Flow, hit_after};

/// A body that completes gives nothing, and its closing brace is an exit.
fn close<P: Probe>(flow: Flow, frame: &Frame<'_, '_, '_>, store: &mut Store, probe: &mut P)
    requires bits { frame.now.program.now.bits ≤ P.bits probe.old }
    ensures did { Did P.leads (where_left (flow_of flow store.old)
        (hits_some (activation_of frame.now) frame.now.function.now.exit) (state_of store.old))
        (Some (given_of store.new.given)) store.new probe.old probe.new }
    ensures typed { (c : Scope) (w : Activation) → IsReturned c w flow store.old.given →
        IsGivenFor c w c.result store.new.given }
    ensures kept { KeepsRowsForAll store.old store.new }
    ensures bits { KeepsBits P.bits probe.old probe.new }
    ensures limits { KeepsLimits store.old store.new }
{
    if !has_left(flow) {
        hit_some(frame.function.exit, frame, store, probe);
        store.keep(Given::Nothing);
    }
}

/// The body of a function in its activation, after its entry, up to the end of the call.
fn body<P: Probe, F: Fn(Called<'_, '_, '_>, &mut Store, &mut P) -> Option<()> + Copy>(
    items: &[Prepared<'_>],
    frame: &Frame<'_, '_, '_>,
    into: Option<u32>,
    invoke: F,
    store: &mut Store,
    probe: &mut P,
) -> Option<()>
    requires same { view.statements_from (map prepared.statement_of items.now)
        ≡ (view.function_of frame.now.function.now).body }
    requires fits { FitStatements frame.now.function.now.registers
        (view.function_of frame.now.function.now).body }
    requires into { IntoRoom (length store.old.cells.cells) into (scope_in frame.now).result }
    requires base { frame.now.base ≤ length store.old.cells.cells }
    requires ready { IsReady frame.now store.old (P.bits probe.old) }
    requires invokes { Invokes frame.now P.bits P.leads (F.pre invoke) (F.post invoke) }
    ensures did { Did P.leads (inside_of (activation_of frame.now)
        (view.function_of frame.now.function.now) into (state_of store.old))
        (option_map (λ _. given_of store.new.given) result) store.new probe.old probe.new }
    ensures given { IfSome result (λ _. IsResultOf into (scope_in frame.now).result
        store.new.given) }
    ensures left { IfSome result (λ _. HasLeft frame.now into store.old store.new) }
    ensures bits { KeepsBits P.bits probe.old probe.new }
    ensures limits { KeepsLimits store.old store.new }
{
    let flow = statements(items, Seek::Running, frame, invoke, store, probe)?;
    close(flow, frame, store, probe);
    store.finish(into, frame.base, frame.first);
    Some(())
}

/// What an activation of a function takes.
fn shape_at<'f, 'p>(shapes: &'f [Shape<'p>], function: u32) -> &'f Shape<'p>
    requires { function < length shapes.now }
    ensures { slice_get shapes.now function ≡ Some result.now }
{
    &shapes[function as usize]
}

/// A call begins: the activation is there, and the parameters have their values, or the run stops.
fn begin<'f, 'a, 'p>(
    called: Called<'f, 'a, 'p>,
    arrays: &'f [Lent],
    store: &mut Store,
) -> Option<Frame<'f, 'a, 'p>>
    requires ready { IsCalled called store.old called.program.now.bits }
    requires some { 1 ≤ called.depth }
    requires arrays { map lent_of arrays.now ≡ steps.lent_of (map passed_of called.passed.now) }
    ensures opened { IfSome result (λ frame. IsOpened called.entry frame store.old store.new) }
    ensures stopped { IfNone result (calls (tree_of called.entry.program.now) called.entry.depth
        called.entry.levels called.entry.function called.entry.into
        (map passed_of called.entry.passed.now) (state_of store.old) ≡ told None store.new) }
    ensures limits { KeepsLimits store.old store.new }
{
    let function = called.program.program().function(called.function);
    let shape = shape_at(called.shapes, called.function);
    let levels = levels_with(called.levels, shape.levels);
    let base = store.enter(levels, shape.cells)?;
    let first = store.registers.len();
    store.enter_registers(function.registers);
    pass(called.passed, &function.objects, base, store);
    Some(Frame {
        program: called.program,
        shapes: called.shapes,
        function,
        arrays,
        base,
        first,
        depth: called.depth - 1,
        levels,
    })
}

/// The bit of the entry of the function that is called, where it has one.
fn entry_of(called: Called<'_, '_, '_>) -> Option<u32>
    requires { called.function < length called.program.now.program.functions }
    ensures { (f : Function) → slice_get called.entry.program.now.program.functions
        called.entry.function ≡ Some f → result ≡ f.entry }
{
    called.program.program().function(called.function).entry
}

/// A call of a function of the program: its entry is hit where it begins. What it gives is kept in
/// the store.
pub(crate) fn invoke<P: Probe>(
    called: Called<'_, '_, '_>,
    store: &mut Store,
    probe: &mut P,
) -> Option<()>
    requires ready { IsCalled called store.old (P.bits probe.old) }
    ensures did { CallDid P.leads called.entry store.old result store.new probe.old probe.new }
    ensures given { IfSome result (λ _. IsResultOf called.entry.into
        (result_at (callee_of called.entry)) store.new.given) }
    ensures keeps { IfSome result (λ _. CallKeeps called.entry store.old store.new) }
    ensures bits { KeepsBits P.bits probe.old probe.new }
    ensures limits { KeepsLimits store.old store.new }
{
    if called.depth == 0 {
        return store.too_deep();
    }
    let mut arrays = ArrayVec::new();
    lend(called.passed, &mut arrays);
    let opened = begin(called, arrays.as_slice(), store);
    let bits = called.program.bits();
    hit_after(opened.is_some(), bits, entry_of(called), probe);
    match opened {
        Some(frame) => {
            let shape = shape_at(called.shapes, called.function);
            body(&shape.body, &frame, called.into, invoke::<P>, store, probe)
        }
        None => None,
    }
}
