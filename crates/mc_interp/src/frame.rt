//! Activations and calls.
ghost use Rattle.std.specs.Prelude.{◌≡◌, ℕ, ◌+◌, ◌*◌, ◌<◌, ◌≤◌, ◌^◌, length, map, slice_get, if◌then◌else◌, Some, IfSome, Option, option_map, unwrap_or};
ghost use Rattle.mc_limits.specs.Limits.{most_run_cells};
ghost use Rattle.mc_value.specs.declared.int_type.IntType.{IntType};
ghost use Rattle.mc_value.specs.declared.trap.Trap.{Trap};
ghost use Rattle.mc_typed.specs.Layout.{ObjectType, cells};
ghost use Rattle.mc_typed.specs.Sound.{Scope, cells_at};
ghost use Rattle.mc_probe.specs.Flat.{Activation, adds, flat, sets};
ghost use Rattle.mc_steps.specs.Runs.{changes, gives, with_some};
ghost use Rattle.mc_steps.specs.Expressions.{with_index};
ghost use Rattle.interp_words.specs.Words.{number_of};
ghost use Rattle.mc_probe.specs.Expressions.{target};
ghost use Rattle.mc_interp.specs.Typed.{IsPlaced};
ghost use Rattle.mc_interp.specs.Stores.{lent_of, state_of, told, Did};
ghost use Rattle.mc_interp.specs.Truths.{path_does};
ghost use Rattle.mc_interp.specs.Frames.{activation_of, scope_in, IsKept};
ghost use Rattle.mc_interp.specs.Keeps.{KeepsBits, KeepsLimits, KeepsRowsForAll};

use crate::store::Store;
use crate::values::{Lent, Passed, Shape};
use hit_sink::Probe;
use interp_steps::hit_path;
use mc_probe::Instrumented;
use mc_typed::{Function, Slot};
use mc_value::{IntType, Trap};

/// An activation of a function: what the functions of the program take, the arrays that its array
/// parameters name, its first cell and register, how many more activations may be open, and how
/// many levels the open ones have.
#[derive(Clone, Copy)]
pub(crate) struct Frame<'f, 'a, 'p> {
    pub program: &'f Instrumented<'a>,
    pub shapes: &'f [Shape<'p>],
    pub function: &'f Function<'a>,
    pub arrays: &'f [Lent],
    pub base: u32,
    pub first: usize,
    pub depth: u32,
    pub levels: u32,
}

/// A call: the function, the place for the structure that it returns, and the arguments, with what
/// an activation has of the caller.
#[derive(Clone, Copy)]
pub(crate) struct Called<'f, 'a, 'p> {
    pub program: &'f Instrumented<'a>,
    pub shapes: &'f [Shape<'p>],
    pub depth: u32,
    pub levels: u32,
    pub function: u32,
    pub into: Option<u32>,
    pub passed: &'f [Passed],
}

impl<'f, 'a, 'p> Frame<'f, 'a, 'p> {
    /// A decision begins: its register is 0.
    pub(crate) fn begin(&self, register: u32, store: &mut Store)
        requires there { self.now.first + register < length store.old.registers.items }
        requires small { length store.old.registers.items ≤ 2 ^ 42 }
        ensures ran { sets (activation_of self.now) register 0 (state_of store.old)
            ≡ told (Some tt) store.new }
        ensures kept { IsKept (scope_in self.now) (activation_of self.now) store.old store.new }
        ensures limits { KeepsLimits store.old store.new }
    {
        store.set_register(self.first, register, 0);
    }

    /// The register of a `switch` tells that no label was chosen yet.
    pub(crate) fn mark(&self, register: u32, store: &mut Store)
        requires there { self.now.first + register < length store.old.registers.items }
        requires small { length store.old.registers.items ≤ 2 ^ 42 }
        ensures ran { sets (activation_of self.now) register 1 (state_of store.old)
            ≡ told (Some tt) store.new }
        ensures kept { KeepsRowsForAll store.old store.new }
        ensures limits { KeepsLimits store.old store.new }
    {
        store.set_register(self.first, register, 1);
    }

    /// A condition adds to its decision's register.
    pub(crate) fn note(
        &self,
        register: u32,
        on_true: u32,
        on_false: u32,
        holds: bool,
        store: &mut Store,
    )
        requires there { self.now.first + register < length store.old.registers.items }
        requires small { length store.old.registers.items ≤ 2 ^ 42 }
        ensures ran { adds (activation_of self.now) register (if holds then on_true else on_false)
            (state_of store.old) ≡ told (Some tt) store.new }
        ensures kept { KeepsRowsForAll store.old store.new }
        ensures limits { KeepsLimits store.old store.new }
    {
        let more = if holds { on_true } else { on_false };
        store.add_to_register(self.first, register, more);
    }

    /// The bit of a decision's path is hit, where the decision came out.
    pub(crate) fn decide<P: Probe>(
        &self,
        outcome: Option<bool>,
        register: u32,
        base: u32,
        store: &Store,
        probe: &mut P,
    )
        requires there { IfSome outcome (λ _. self.now.first + register
            < length store.now.registers.items) }
        requires small { IfSome outcome (λ _. length store.now.registers.items ≤ 2 ^ 42) }
        requires bits { self.now.program.now.bits ≤ P.bits probe.old }
        ensures did { Did P.leads (path_does (activation_of self.now) register base outcome
            (state_of store.now)) (Some tt) store.now probe.old probe.new }
        ensures bits { KeepsBits P.bits probe.old probe.new }
    {
        let bits = self.program.bits();
        hit_path(
            outcome,
            &store.registers,
            self.first,
            register,
            base,
            bits,
            probe,
        );
    }

    /// An item of the array that an array parameter names; its index is tested, or the run stops.
    pub(crate) fn lent_item(
        &self,
        array: u32,
        stride: u32,
        index: u64,
        store: &mut Store,
    ) -> Option<u32>
        requires there { array < length self.now.arrays.now }
        requires small { IfSome (slice_get self.now.arrays.now array)
            (λ l. l.base + l.length * stride ≤ most_run_cells) }
        ensures ran { (u : IntType) → with_some Trap.Index (slice_get (map lent_of
            self.now.arrays.now) array) (λ l s. with_index (number_of u index) l.length
            (λ i s. gives (l.place + i * stride) s) s) (state_of store.old)
            ≡ told result store.new }
        ensures index { IfSome (slice_get self.now.arrays.now array) (λ l. IfSome result
            (λ k. (i : ℕ) × (i < l.length) × (k ≡ l.base + i * stride))) }
        ensures kept { KeepsRowsForAll store.old store.new }
        ensures limits { KeepsLimits store.old store.new }
    {
        let lent = self.arrays[array as usize];
        store.item(lent.base, lent.length, stride, index)
    }

    /// The array that an array parameter names.
    pub(crate) fn lent(&self, array: u32) -> Lent
        requires { array < length self.now.arrays.now }
        ensures { slice_get self.now.arrays.now array ≡ Some result }
    {
        self.arrays[array as usize]
    }

    /// Where the temporary object for the structure that a call returns begins.
    pub(crate) fn into(&self, slot: Option<Slot>) -> Option<u32>
        requires { IfSome slot (λ s. self.now.base + s.start ≤ most_run_cells) }
        ensures { result ≡ option_map (λ s. self.now.base + s.start) slot }
    {
        match slot {
            Some(taken) => Some(self.base + taken.start),
            None => None,
        }
    }

    /// How many cells an object of the activation has.
    fn cells_of(&self, object: u32) -> u32
        requires { object < length self.now.function.now.objects.items }
        ensures { result ≡ unwrap_or (cells_at (activation_of self.now).objects object) 0 }
    {
        self.function.objects[object as usize].cells
    }

    /// A structure is copied to a temporary object of the activation, which begins at the result.
    pub(crate) fn copied(&self, from: u32, copy: Slot, store: &mut Store) -> u32
        requires there { copy.object < length self.now.function.now.objects.items }
        requires source { from + (target (activation_of self.now) copy).cells
            ≤ length store.old.cells.cells }
        requires room { self.now.base + copy.start
            + (target (activation_of self.now) copy).cells ≤ length store.old.cells.cells }
        requires small { self.now.base + copy.start ≤ most_run_cells }
        ensures place { result ≡ self.now.base + copy.start }
        ensures ran { changes (flat.copy from (self.now.base + copy.start)
            (target (activation_of self.now) copy).cells) (state_of store.old)
            ≡ told (Some tt) store.new }
        ensures kept { (c : Scope) (w : Activation) (u : ObjectType) →
            (target (activation_of self.now) copy).cells ≡ cells u →
            IsPlaced c w from (Some u) → IsPlaced c w (self.now.base + copy.start) (Some u) →
            IsKept c w store.old store.new }
        ensures limits { KeepsLimits store.old store.new }
    {
        let cells = self.cells_of(copy.object);
        let to = self.base + copy.start;
        store.copy(from, to, cells);
        to
    }
}
