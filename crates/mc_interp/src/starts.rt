//! The state in which a test starts. None of it takes memory.
#![tactic(auto, unfolding(crate::specs::Stores::limits_of))]

ghost use Rattle.std.specs.Prelude.{◌≡◌, ◌+◌, ◌≤◌, ◌++◌, ◌∷◌, [], Some, length, map, flat_map, sum};
ghost use Rattle.mc_typed.specs.Views as plain;
ghost use Rattle.mc_cells.specs.Rows.{with_cells};
ghost use Rattle.mc_stack.specs.Rooms.{with_values};
ghost use Rattle.mc_interp.specs.Stores.{state_of};
ghost use Rattle.mc_interp.specs.Machines.{initial_of, state_at};
ghost use Rattle.mc_interp.specs.Keeps.{KeepsLimits};

use crate::store::Store;
use mc_cells::Cells;
use mc_stack::Stack;
use mc_typed::StaticObject;

/// One more cell, which holds a number.
fn put(value: i128, cells: &mut Cells)
    requires { length cells.old.cells + 1 ≤ cells.old.limit }
    ensures { cells.new ≡ with_cells cells.old (cells.old.cells ++ Some value ∷ []) }
{
    if let Some(at) = cells.enter(1) {
        cells.set(at, Some(value));
    }
}

/// The initial values of an object.
fn put_all(values: &[i128], cells: &mut Cells)
    requires { length cells.old.cells + length values.now ≤ cells.old.limit }
    ensures { cells.new ≡ with_cells cells.old (cells.old.cells ++ map Some values.now) }
{
    for value in values {
        put(*value, cells);
    }
}

/// The initial values of the static objects (C17 6.7.9p10).
fn put_statics(statics: &[StaticObject], cells: &mut Cells)
    requires { length cells.old.cells + length (initial_of (map plain.static_of statics.now))
        ≤ cells.old.limit }
    ensures { cells.new ≡ with_cells cells.old
        (cells.old.cells ++ map Some (initial_of (map plain.static_of statics.now))) }
{
    for object in statics {
        put_all(&object.initial, cells);
    }
}

/// The inputs of a test.
fn take_inputs(numbers: &[i32], inputs: &mut Stack<i32>)
    requires { length inputs.old.items + length numbers.now ≤ inputs.old.limit }
    ensures { inputs.new ≡ with_values inputs.old (inputs.old.items ++ numbers.now) }
{
    for number in numbers {
        inputs.push(*number);
    }
}

impl Store {
    /// The state in which a test starts: the static objects with their initial values, and no
    /// activation.
    pub(crate) fn start(&mut self, statics: &[StaticObject], inputs: &[i32], fuel: u32)
        requires room { length (initial_of (map plain.static_of statics.now))
            ≤ self.old.cells.limit }
        requires inputs_few { length inputs.now ≤ self.old.inputs.limit }
        ensures state { state_of self.new
            ≡ state_at (map plain.static_of statics.now) inputs.now fuel }
        ensures limits { KeepsLimits self.old self.new }
    {
        self.cells.leave(0);
        put_statics(statics, &mut self.cells);
        self.registers.leave(0);
        self.inputs.leave(0);
        take_inputs(inputs, &mut self.inputs);
        self.next = 0;
        self.output.leave(0);
        self.fuel = fuel;
    }
}
