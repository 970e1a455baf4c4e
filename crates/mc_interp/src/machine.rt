//! Runs of tests.
ghost use Rattle.std.specs.Prelude.{◌≡◌, ◌≤◌, map, IfOk};
ghost use Rattle.mc_typed.specs.Plans.{Fits, plan_of};
ghost use Rattle.mc_probe.specs.Erase.{erase};
ghost use Rattle.mc_probe.specs.Tests.{run_of};
ghost use Rattle.mc_probe.specs.Trees.{tree_of};
ghost use Rattle.mc_probe.specs.Views as view;
ghost use Rattle.mc_typed.specs.Views as plain;
ghost use Rattle.mc_interp.specs.Frames.{most_registers, shape_of, taken_of};
ghost use Rattle.mc_interp.specs.Machines.{done_of, fresh, ran_of, AreFramed};

use crate::call_done::CallDone;
use crate::prepared::prepare_all;
use crate::store::Store;
use crate::tests::test_calls;
use crate::values::{Given, Shape};
use hit_sink::Probe;
use mc_cells::Cells;
use mc_limits::{MOST_CALLS, MOST_INPUTS, MOST_LEVELS, MOST_RUN_CELLS, MOST_RUN_OUTPUTS};
use mc_probe::Instrumented;
use mc_stack::Stack;
use mc_typed::{Ending, Function, TestPlan, frame_cells, levels_of_body};
use std::alloc::{AllocError, Global};
use std::cmp::max;
use std::marker::Model;

/// What an activation of each function takes, and its body as it runs.
fn shapes_of<'p>(alloc: Global, functions: &'p [Function<'_>]) -> Result<Vec<Shape<'p>>, AllocError>
    requires { AreFramed (map plain.function_of functions.now) }
    ensures { IfOk result (λ v. map taken_of v.items ≡ map shape_of functions.now) }
{
    let mut shapes = Vec::with_capacity(alloc, functions.len())?;
    for function in functions {
        shapes.push(Shape {
            levels: levels_of_body(&function.body),
            cells: frame_cells(function),
            body: prepare_all(alloc, &function.body)?,
        })?;
    }
    Ok(shapes)
}

/// The most registers of a function.
fn most_registers(functions: &[Function<'_>]) -> u32
    ensures { result ≡ most_registers (map view.function_of functions.now) }
{
    let mut most = 0;
    for function in functions {
        most = max(most, function.registers);
    }
    most
}

/// Runs the tests of one program, one after the other. It is seen as the program and what the last
/// run left: the calls that returned, the output and the fuel. All memory is taken when it is made.
#[derive(Drop)]
pub struct Machine<'p, 'a> {
    program: &'p Instrumented<'a>,
    shapes: Vec<Shape<'p>>,
    store: Store,
    done: Stack<CallDone>,
}

impl<'p, 'a> Model for Machine<'p, 'a> {
    ghost use Rattle.std.specs.Prelude.{map};
    ghost use Rattle.std.specs.Coded.{codes};
    ghost use Rattle.mc_value.specs.contracts.object_type.ObjType as object_types_of;
    ghost use Rattle.mc_typed.specs.contracts.expressions.Expression as expressions_of;
    ghost use Rattle.mc_typed.specs.contracts.expressions.Place as places_of;
    ghost use Rattle.mc_typed.specs.contracts.expressions.Structure as structures_of;
    ghost use Rattle.mc_typed.specs.contracts.expressions.FunctionCall as calls_of;
    ghost use Rattle.mc_typed.specs.contracts.effects.Effect as effects_of;
    ghost use Rattle.mc_typed.specs.contracts.initializers.Initializer as initializers_of;
    ghost use Rattle.mc_typed.specs.contracts.statements.Statement as statements_of;
    ghost use Rattle.mc_interp.specs.Machines.{done_of, HasRoom};
    ghost use Rattle.mc_interp.specs.Machines as value;

    ghost Value = { value.Machine };

    ghost coded = { Prim.hlevel (
      codes,
      object_types_of.the_row.coded,
      expressions_of.the_row.coded,
      places_of.the_row.coded,
      structures_of.the_row.coded,
      calls_of.the_row.coded,
      effects_of.the_row.coded,
      initializers_of.the_row.coded,
      statements_of.the_row.coded,
    ) };

    ghost view = { λ m. record {
      program = m.program.now;
      done = map done_of m.done.items;
      output = m.store.output.items;
      fuel = m.store.fuel;
    } };

    ghost invariant = { λ m. HasRoom m.program.now m.shapes.items m.store m.done };
}

impl<'p, 'a> Machine<'p, 'a> {
    /// A machine for this program. It takes the room that every run uses: the most cells, inputs,
    /// outputs and calls, and the registers of all activations that the most levels allow.
    pub fn new(alloc: Global, program: &'p Instrumented<'a>) -> Result<Machine<'p, 'a>, AllocError>
        ensures { IfOk result (λ m. m ≡ fresh program.now) }
    {
        let functions = program.program().functions();
        let shapes = shapes_of(alloc, functions)?;
        let most = most_registers(functions) as usize;
        let cells = Cells::with(alloc, MOST_RUN_CELLS)?;
        let registers = Stack::with(alloc, MOST_LEVELS as usize * most)?;
        let inputs = Stack::with(alloc, MOST_INPUTS as usize)?;
        let output = Stack::with(alloc, MOST_RUN_OUTPUTS as usize)?;
        let done = Stack::with(alloc, MOST_CALLS as usize)?;
        let store = Store {
            cells,
            registers,
            fuel: 0,
            inputs,
            next: 0,
            output,
            given: Given::Nothing,
            ending: Ending::Returned,
        };
        Ok(Machine {
            program,
            shapes,
            store,
            done,
        })
    }

    /// Runs a test. Its ending, its values, its outputs, the fuel that it leaves and its hits in
    /// order are those of the definition, whatever the increments and bits of the tree. Takes no
    /// memory.
    pub fn run<P: Probe>(&mut self, plan: &TestPlan, probe: &mut P) -> Ending
        requires fits { Fits (plan_of plan.now) (erase (tree_of self.old.program).program) }
        requires bits { self.old.program.bits ≤ P.bits probe.old }
        ensures ending { result
            ≡ (run_of (tree_of self.old.program) (plan_of plan.now)).ending }
        ensures left { self.new ≡ ran_of self.old.program
            (run_of (tree_of self.old.program) (plan_of plan.now)) }
        ensures led { P.leads (run_of (tree_of self.old.program) (plan_of plan.now)).events
            probe.old probe.new }
        ensures bits { P.bits probe.new ≡ P.bits probe.old }
    {
        let program = self.program;
        let statics = program.program().statics();
        self.store.start(statics, plan.inputs.numbers(), plan.fuel);
        self.done.leave(0);
        test_calls(
            &plan.calls,
            program,
            &self.shapes,
            &mut self.store,
            &mut self.done,
            probe,
        )
    }

    /// The calls of the last run that returned, in order. Takes no memory.
    pub fn done(&self) -> &[CallDone]
        ensures { map done_of result.now ≡ self.now.done }
    {
        self.done.values()
    }

    /// The numbers that the last run put out, in order. Takes no memory.
    pub fn output(&self) -> &[i32]
        ensures { result.now ≡ self.now.output }
    {
        self.store.output.values()
    }

    /// The units of fuel that the last run left. Takes no memory.
    pub fn fuel_left(&self) -> u32
        ensures { result ≡ self.now.fuel }
    {
        self.store.fuel
    }
}
