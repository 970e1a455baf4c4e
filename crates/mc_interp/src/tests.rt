//! The calls of a test.
ghost use Rattle.std.specs.Prelude.{◌≡◌, ◌+◌, ◌≤◌, ◌++◌, [], Some, length, map, slice_get, IfSome, List};
ghost use Rattle.mc_limits.specs.Limits.{most_parameters};
ghost use Rattle.arrayvec.specs.ArrayVec.{array_vec_len};
ghost use Rattle.mc_value.specs.IntTypes.{InRange};
ghost use Rattle.mc_value.specs.declared.int_type.IntType.{IntType};
ghost use Rattle.mc_typed.specs.Plans.{plan_call_of, AreValues, CallFits, CallsFit};
ghost use Rattle.mc_typed.specs.Tree as typed;
ghost use Rattle.mc_typed.specs.Views as plain;
ghost use Rattle.mc_steps.specs.Calls as passing;
ghost use Rattle.mc_steps.specs.Tests as steps;
ghost use Rattle.mc_probe.specs.Tests as definition;
ghost use Rattle.mc_probe.specs.Trees.{tree_of};
ghost use Rattle.mc_interp.specs.Calls.{ArePassed, IsPassed, IsResultOf};
ghost use Rattle.mc_interp.specs.Machines.{done_of, AreReady, GivesNumber, RanTo};
ghost use Rattle.mc_interp.specs.Stores.{given_of, passed_of, state_of, told, Did};
ghost use Rattle.mc_interp.specs.Keeps.{KeepsBits, KeepsLimits};

use crate::call_done::CallDone;
use crate::calls::invoke;
use crate::frame::Called;
use crate::store::Store;
use crate::values::{MOST_PASSED, Passed, Shape};
use arrayvec::ArrayVec;
use hit_sink::Probe;
use interp_words::{number, word};
use mc_limits::MOST_LEVELS;
use mc_probe::Instrumented;
use mc_stack::Stack;
use mc_typed::{Call, Ending, ParameterType, ResultType};
use mc_value::IntType;

/// A number that a test passes, for a parameter of its type.
fn number_passed(of: IntType, value: i128) -> Passed
    requires { InRange of value }
    ensures value { passed_of result ≡ passing.PassedNumber value }
    ensures typed { (types : List IntType) → IsPassed types result (typed.NumberParameter of) }
{
    Passed::Number {
        of,
        word: word(of, value),
    }
}

/// The values that a test passes, for the parameters of its function.
fn pass_values(
    values: &[i128],
    parameters: &[ParameterType],
    passed: &mut ArrayVec<Passed, MOST_PASSED>,
)
    requires fits { AreValues values.now (map plain.parameter_of parameters.now) }
    requires room { array_vec_len passed.old + length values.now ≤ most_parameters }
    ensures values { map passed_of passed.new.items
        ≡ map passed_of passed.old.items ++ map passing.PassedNumber values.now }
    ensures typed { (types : List IntType) (before : List typed.ParameterType) →
        ArePassed types passed.old.items before →
        ArePassed types passed.new.items (before ++ map plain.parameter_of parameters.now) }
{
    if let [value, later @ ..] = values {
        if let [parameter, others @ ..] = parameters {
            if let ParameterType::Int(of) = parameter {
                passed.push(number_passed(*of, *value));
                pass_values(later, others, passed);
            }
        }
    }
}

/// What a test takes of a call that returned: a value, where its function gives one.
fn value_given(kind: &ResultType, store: &mut Store) -> Option<Option<i128>>
    requires given { IsResultOf None (plain.result_of kind.now) store.old.given }
    requires number { GivesNumber (plain.result_of kind.now) }
    ensures ran { steps.value_given (plain.result_of kind.now) (given_of store.old.given)
        (state_of store.old) ≡ told result store.new }
    ensures limits { KeepsLimits store.old store.new }
{
    match kind {
        ResultType::Void => Some(None),
        ResultType::Int(of) => {
            let word = store.number_given()?;
            Some(Some(number(*of, word)))
        }
        ResultType::Structure(_) => unreachable!(),
    }
}

/// A call of a test, and its value.
fn test_call<P: Probe>(
    call: &Call,
    program: &Instrumented<'_>,
    shapes: &[Shape<'_>],
    store: &mut Store,
    probe: &mut P,
) -> Option<Option<i128>>
    requires fits { CallFits (plan_call_of call.now)
        (slice_get (plain.program_of program.now.program).functions call.now.function) }
    requires ready { AreReady program.now shapes.now store.old (P.bits probe.old) }
    ensures did { Did P.leads (definition.test_call (tree_of program.now) (plan_call_of call.now)
        (state_of store.old)) result store.new probe.old probe.new }
    ensures ready { IfSome result
        (λ _. AreReady program.now shapes.now store.new (P.bits probe.new)) }
    ensures bits { KeepsBits P.bits probe.old probe.new }
    ensures limits { KeepsLimits store.old store.new }
{
    let function = program.program().function(call.function);
    let mut passed = ArrayVec::new();
    pass_values(&call.arguments, &function.parameters, &mut passed);
    let called = Called {
        program,
        shapes,
        depth: MOST_LEVELS,
        levels: 0,
        function: call.function,
        into: None,
        passed: passed.as_slice(),
    };
    invoke(called, store, probe)?;
    value_given(&function.result, store)
}

/// The calls of a test, in their order, up to the first that does not return.
pub(crate) fn test_calls<P: Probe>(
    calls: &[Call],
    program: &Instrumented<'_>,
    shapes: &[Shape<'_>],
    store: &mut Store,
    done: &mut Stack<CallDone>,
    probe: &mut P,
) -> Ending
    requires fits { CallsFit (map plan_call_of calls.now) (plain.program_of program.now.program) }
    requires ready { AreReady program.now shapes.now store.old (P.bits probe.old) }
    requires none { done.old.items ≡ [] }
    requires room { length calls.now ≤ done.old.limit }
    ensures ran { RanTo P.leads (steps.calls_do (map (definition.test_call (tree_of program.now))
        (map plan_call_of calls.now)) (state_of store.old)) result (map done_of done.new.items)
        store.new probe.old probe.new }
    ensures done_limit { done.new.limit ≡ done.old.limit }
    ensures bits { KeepsBits P.bits probe.old probe.new }
    ensures limits { KeepsLimits store.old store.new }
{
    for call in calls {
        match test_call(call, program, shapes, store, probe) {
            Some(value) => done.push(CallDone {
                value,
                output_end: store.output.in_use() as u32,
            }),
            None => return store.ending,
        }
    }
    Ending::Returned
}
