//! Initial values of objects with automatic storage duration (C17 6.7.9).
ghost use Rattle.std.specs.Prelude.{◌≡◌, ◌+◌, ◌≤◌, Some, length, map, option_map};
ghost use Rattle.mc_typed.specs.Layout.{Scalar, cells as cells_of};
ghost use Rattle.mc_typed.specs.Sound.{structure_type, type_of, AreDeclarators, IsDeclarator, IsExpression, IsStructure};
ghost use Rattle.mc_typed.specs.Views as plain;
ghost use Rattle.mc_steps.specs.Calls as steps;
ghost use Rattle.mc_probe.specs.Expressions as does;
ghost use Rattle.mc_probe.specs.Flat.{flat, Activation};
ghost use Rattle.mc_probe.specs.Statements as statements;
ghost use Rattle.mc_probe.specs.Views as view;
ghost use Rattle.mc_probe.specs.WellFormed.{Fits, FitDeclarators, FitInitializers, FitsInitial, FitsInitializer, FitsStructure};
ghost use Rattle.mc_interp.specs.Stores.{state_of, Did};
ghost use Rattle.mc_interp.specs.Effects.{declarator_does, width, InitializeAll, Initializes, InitializesSome, IsBlock};
ghost use Rattle.mc_interp.specs.Typed.{IsPlaced};
ghost use Rattle.mc_interp.specs.Frames.{activation_of, scope_in, IsReady};
ghost use Rattle.mc_interp.specs.Calls.{Invokes};
ghost use Rattle.mc_interp.specs.Keeps.{KeepsBits, KeepsLimits, KeepsRows};

use crate::expressions::{structure, value};
use crate::frame::{Called, Frame};
use crate::store::Store;
use hit_sink::Probe;
use mc_typed::{Declarator, Expression, Initializer, Structure};

/// How many cells an initializer sets.
fn width(tree: &Initializer) -> u32
    ensures run { (w : Activation) →
        result ≡ statements.width w (view.initializer_of tree.now) }
    ensures typed { result ≡ width (plain.initializer_of tree.now) }
{
    match tree {
        Initializer::Number { .. } => 1,
        Initializer::Structure { cells, .. }
        | Initializer::List { cells, .. }
        | Initializer::Zero { cells, .. } => *cells,
    }
}

/// A scalar gets its initial value.
fn store_value<P: Probe, F: Fn(Called<'_, '_, '_>, &mut Store, &mut P) -> Option<()> + Copy>(
    e: &Expression,
    at: u32,
    frame: &Frame<'_, '_, '_>,
    invoke: F,
    store: &mut Store,
    probe: &mut P,
) -> Option<()>
    requires sound { IsExpression (plain.expression_of e.now) (scope_in frame.now) }
    requires placed { IsPlaced (scope_in frame.now) (activation_of frame.now) at
        (Some (Scalar (type_of (plain.expression_of e.now)))) }
    requires fits { Fits frame.now.function.now.registers (view.expression_of e.now) }
    requires ready { IsReady frame.now store.old (P.bits probe.old) }
    requires invokes { Invokes frame.now P.bits P.leads (F.pre invoke) (F.post invoke) }
    ensures did { Did P.leads (steps.store_does flat at
        (does.evaluate (activation_of frame.now) (view.expression_of e.now))
        (state_of store.old)) result store.new probe.old probe.new }
    ensures kept { KeepsRows frame.now result store.old store.new }
    ensures bits { KeepsBits P.bits probe.old probe.new }
    ensures limits { KeepsLimits store.old store.new }
{
    let word = value(e, frame, invoke, store, probe)?;
    store.write(at, e.integer_type(), word);
    Some(())
}

/// A structure gets its initial value.
fn store_structure<P: Probe, F: Fn(Called<'_, '_, '_>, &mut Store, &mut P) -> Option<()> + Copy>(
    source: &Structure,
    cells: u32,
    at: u32,
    frame: &Frame<'_, '_, '_>,
    invoke: F,
    store: &mut Store,
    probe: &mut P,
) -> Option<()>
    requires sound { IsStructure (plain.structure_of source.now) (scope_in frame.now) }
    requires placed { IsPlaced (scope_in frame.now) (activation_of frame.now) at
        (structure_type (scope_in frame.now) (plain.structure_of source.now)) }
    requires cells { option_map cells_of
        (structure_type (scope_in frame.now) (plain.structure_of source.now)) ≡ Some cells }
    requires fits { FitsStructure frame.now.function.now.registers
        (view.structure_of source.now) }
    requires ready { IsReady frame.now store.old (P.bits probe.old) }
    requires invokes { Invokes frame.now P.bits P.leads (F.pre invoke) (F.post invoke) }
    ensures did { Did P.leads (steps.store_structure_does flat at cells
        (does.evaluate_structure (activation_of frame.now) (view.structure_of source.now))
        (state_of store.old)) result store.new probe.old probe.new }
    ensures kept { KeepsRows frame.now result store.old store.new }
    ensures bits { KeepsBits P.bits probe.old probe.new }
    ensures limits { KeepsLimits store.old store.new }
{
    let from = structure(source, frame, invoke, store, probe)?;
    store.copy(from, at, cells);
    Some(())
}

/// What stands at a place is initialized.
#[cycle(initializer)]
fn initializer<P: Probe, F: Fn(Called<'_, '_, '_>, &mut Store, &mut P) -> Option<()> + Copy>(
    tree: &Initializer,
    at: u32,
    frame: &Frame<'_, '_, '_>,
    invoke: F,
    store: &mut Store,
    probe: &mut P,
) -> Option<()>
    requires sound { Initializes (scope_in frame.now) (activation_of frame.now)
        (plain.initializer_of tree.now) at }
    requires fits { FitsInitializer frame.now.function.now.registers
        (view.initializer_of tree.now) }
    requires ready { IsReady frame.now store.old (P.bits probe.old) }
    requires invokes { Invokes frame.now P.bits P.leads (F.pre invoke) (F.post invoke) }
    ensures did { Did P.leads (statements.initialize (activation_of frame.now)
        (view.initializer_of tree.now) at (state_of store.old)) result store.new
        probe.old probe.new }
    ensures kept { KeepsRows frame.now result store.old store.new }
    ensures bits { KeepsBits P.bits probe.old probe.new }
    ensures limits { KeepsLimits store.old store.new }
{
    match tree {
        Initializer::Number { value } => store_value(value, at, frame, invoke, store, probe),
        Initializer::Structure { value, cells } => {
            store_structure(value, *cells, at, frame, invoke, store, probe)
        }
        Initializer::List {
            items: parts,
            cells,
        } => items(parts, *cells, at, frame, invoke, store, probe),
        Initializer::Zero { cells, .. } => {
            store.zero(at, *cells);
            Some(())
        }
    }
}

/// The first parts of what stands at a place are initialized, and the rest becomes 0.
#[cycle(initializer)]
fn items<P: Probe, F: Fn(Called<'_, '_, '_>, &mut Store, &mut P) -> Option<()> + Copy>(
    trees: &[Initializer],
    cells: u32,
    at: u32,
    frame: &Frame<'_, '_, '_>,
    invoke: F,
    store: &mut Store,
    probe: &mut P,
) -> Option<()>
    requires sound { InitializeAll (scope_in frame.now) (activation_of frame.now)
        (plain.initializers_from (map plain.initializer_of trees.now)) at 0 cells }
    requires block { IsBlock (scope_in frame.now) (activation_of frame.now) at cells }
    requires fits { FitInitializers frame.now.function.now.registers
        (view.initializers_from (map view.initializer_of trees.now)) }
    requires ready { IsReady frame.now store.old (P.bits probe.old) }
    requires invokes { Invokes frame.now P.bits P.leads (F.pre invoke) (F.post invoke) }
    ensures did { Did P.leads (statements.initialize_from (activation_of frame.now)
        (view.initializers_from (map view.initializer_of trees.now)) at 0 0 cells
        (state_of store.old)) result store.new probe.old probe.new }
    ensures kept { KeepsRows frame.now result store.old store.new }
    ensures bits { KeepsBits P.bits probe.old probe.new }
    ensures limits { KeepsLimits store.old store.new }
{
    let mut offset = 0;
    for tree in trees {
        initializer(tree, at + offset, frame, invoke, store, probe)?;
        offset += width(tree);
    }
    store.zero(at + offset, cells - offset);
    Some(())
}

/// The initial value of an object, where it has one.
fn initial<P: Probe, F: Fn(Called<'_, '_, '_>, &mut Store, &mut P) -> Option<()> + Copy>(
    tree: &Option<Initializer>,
    at: u32,
    frame: &Frame<'_, '_, '_>,
    invoke: F,
    store: &mut Store,
    probe: &mut P,
) -> Option<()>
    requires sound { InitializesSome (scope_in frame.now) (activation_of frame.now)
        (option_map plain.initializer_of tree.now) at }
    requires fits { FitsInitial frame.now.function.now.registers
        (option_map view.initializer_of tree.now) }
    requires ready { IsReady frame.now store.old (P.bits probe.old) }
    requires invokes { Invokes frame.now P.bits P.leads (F.pre invoke) (F.post invoke) }
    ensures did { Did P.leads (statements.initialize_where (activation_of frame.now)
        (option_map view.initializer_of tree.now) at (state_of store.old)) result store.new
        probe.old probe.new }
    ensures kept { KeepsRows frame.now result store.old store.new }
    ensures bits { KeepsBits P.bits probe.old probe.new }
    ensures limits { KeepsLimits store.old store.new }
{
    match tree {
        Some(value) => initializer(value, at, frame, invoke, store, probe),
        None => Some(()),
    }
}

/// An object becomes unset, and then gets its initial value (C17 6.2.4p6).
fn declarator<P: Probe, F: Fn(Called<'_, '_, '_>, &mut Store, &mut P) -> Option<()> + Copy>(
    tree: &Declarator,
    frame: &Frame<'_, '_, '_>,
    invoke: F,
    store: &mut Store,
    probe: &mut P,
) -> Option<()>
    requires sound { IsDeclarator (plain.declarator_of tree.now) (scope_in frame.now) }
    requires fits { FitsInitial frame.now.function.now.registers
        (option_map view.initializer_of tree.now.value) }
    requires ready { IsReady frame.now store.old (P.bits probe.old) }
    requires invokes { Invokes frame.now P.bits P.leads (F.pre invoke) (F.post invoke) }
    ensures did { Did P.leads (declarator_does (activation_of frame.now)
        (view.declarator_of tree.now) (state_of store.old)) result store.new
        probe.old probe.new }
    ensures kept { KeepsRows frame.now result store.old store.new }
    ensures bits { KeepsBits P.bits probe.old probe.new }
    ensures limits { KeepsLimits store.old store.new }
{
    let at = frame.base + tree.slot.start;
    store.unset(at, tree.cells);
    initial(&tree.value, at, frame, invoke, store, probe)
}

/// The objects of a declaration, in their order.
pub(crate) fn declarators<
    P: Probe,
    F: Fn(Called<'_, '_, '_>, &mut Store, &mut P) -> Option<()> + Copy,
>(
    trees: &[Declarator],
    frame: &Frame<'_, '_, '_>,
    invoke: F,
    store: &mut Store,
    probe: &mut P,
) -> Option<()>
    requires sound { AreDeclarators (map plain.declarator_of trees.now) (scope_in frame.now) }
    requires fits { FitDeclarators frame.now.function.now.registers
        (map view.declarator_of trees.now) }
    requires ready { IsReady frame.now store.old (P.bits probe.old) }
    requires invokes { Invokes frame.now P.bits P.leads (F.pre invoke) (F.post invoke) }
    ensures did { Did P.leads (statements.declare (activation_of frame.now)
        (map view.declarator_of trees.now) (state_of store.old)) result store.new
        probe.old probe.new }
    ensures kept { KeepsRows frame.now result store.old store.new }
    ensures bits { KeepsBits P.bits probe.old probe.new }
    ensures limits { KeepsLimits store.old store.new }
{
    for tree in trees {
        declarator(tree, frame, invoke, store, probe)?;
    }
    Some(())
}
