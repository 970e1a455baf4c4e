//! Expressions: their values, and whether they are true.
ghost use Rattle.std.specs.Prelude.{◌≡◌, ◌≤◌, List, [], false, length, map, option_map, true, IfSome};
ghost use Rattle.mc_limits.specs.Limits.{most_parameters};
ghost use Rattle.mc_value.specs.declared.int_type.IntType.{IntType};
ghost use Rattle.mc_typed.specs.Sound.{IsExpression, IsPlace, IsStructure, compares, place_type, structure_type, type_of};
ghost use Rattle.mc_typed.specs.declared.operators.Operator.TheVariants.{Binary};
ghost use Rattle.mc_typed.specs.Views as plain;
ghost use Rattle.interp_words.specs.Words.{number_of, Holds};
ghost use Rattle.mc_probe.specs.Expressions as does;
ghost use Rattle.mc_probe.specs.Views as view;
ghost use Rattle.mc_probe.specs.WellFormed.{Fits, FitsPlace, FitsStructure, FitsCall, FitArguments, FitsArgument};
ghost use Rattle.mc_interp.specs.Stores.{given_of, passed_of, state_of, Did};
ghost use Rattle.mc_interp.specs.Typed.{into_of, result_in, AreSomeArguments, AreTyped, ArePassedFor, IsAnyCall, IsPassedFor, IsPlaced, IsSomeArgument};
ghost use Rattle.mc_interp.specs.Frames.{activation_of, scope_in, IsReady};
ghost use Rattle.mc_interp.specs.Calls.{Invokes, IsResultOf};
ghost use Rattle.mc_interp.specs.Truths as truths;
ghost use Rattle.mc_interp.specs.Keeps.{KeepsBits, KeepsLimits, KeepsRows};
ghost use Rattle.mc_steps.specs.Expressions as steps;

use crate::frame::{Called, Frame};
use crate::steps::goes_on;
use crate::store::Store;
use crate::values::{Lent, MOST_PASSED, Passed};
use arrayvec::ArrayVec;
use hit_sink::Probe;
use interp_steps::{in_order, is_true};
use interp_words::{compare, convert, operate, unary, word};
use mc_typed::{Argument, Expression, FunctionCall, Operator, Place, Probe as Mark, Structure};
use mc_value::BinOp;

/// Whether a probe gives a truth value.
fn tells_truth(probe: Mark) -> bool
    ensures { result ≡ truths.tells_truth probe }
{
    match probe {
        Mark::Decision { .. } | Mark::Condition { .. } => true,
        Mark::Switch { .. } => false,
    }
}

/// Whether an expression gives a truth value by its form.
fn is_logical(e: &Expression) -> bool
    ensures { result ≡ truths.is_logical (view.expression_of e.now) }
{
    match e {
        Expression::Not { .. } | Expression::Logic { .. } => true,
        Expression::Probe { probe, .. } => tells_truth(*probe),
        Expression::Constant { .. }
        | Expression::Read { .. }
        | Expression::Unary { .. }
        | Expression::Convert { .. }
        | Expression::Binary { .. }
        | Expression::Choice { .. }
        | Expression::Call { .. }
        | Expression::Input { .. } => false,
    }
}

/// The comparison that an operator is, where it is one (C17 6.5.8, 6.5.9).
fn comparison(operator: Operator) -> Option<BinOp>
    ensures { IfSome result (λ compared. (operator ≡ Binary compared)
        × (compares compared ≡ true)) }
{
    match operator {
        Operator::Binary(compared) => match compared {
            BinOp::Lt | BinOp::Gt | BinOp::Le | BinOp::Ge | BinOp::Eq | BinOp::Ne => {
                Some(compared)
            }
            _ => None,
        },
        Operator::Shift(_) => None,
    }
}

/// The value of an expression.
#[cycle(expressions)]
#[inline(always)]
pub(crate) fn value<P: Probe, F: Fn(Called<'_, '_, '_>, &mut Store, &mut P) -> Option<()> + Copy>(
    e: &Expression,
    frame: &Frame<'_, '_, '_>,
    invoke: F,
    store: &mut Store,
    probe: &mut P,
) -> Option<u64>
    requires sound { IsExpression (plain.expression_of e.now) (scope_in frame.now) }
    requires fits { Fits frame.now.function.now.registers (view.expression_of e.now) }
    requires ready { IsReady frame.now store.old (P.bits probe.old) }
    requires invokes { Invokes frame.now P.bits P.leads (F.pre invoke) (F.post invoke) }
    ensures did { Did P.leads (does.evaluate (activation_of frame.now) (view.expression_of e.now)
        (state_of store.old)) (option_map (number_of (type_of (plain.expression_of e.now))) result)
        store.new probe.old probe.new }
    ensures typed { IfSome result (Holds (type_of (plain.expression_of e.now))) }
    ensures kept { KeepsRows frame.now result store.old store.new }
    ensures bits { KeepsBits P.bits probe.old probe.new }
    ensures limits { KeepsLimits store.old store.new }
{
    if is_logical(e) {
        let holds = truth(e, frame, invoke, store, probe)?;
        Some(u64::from(holds))
    } else {
        other(e, frame, invoke, store, probe)
    }
}

/// Whether an expression differs from 0.
#[cycle(expressions)]
pub(crate) fn truth<P: Probe, F: Fn(Called<'_, '_, '_>, &mut Store, &mut P) -> Option<()> + Copy>(
    e: &Expression,
    frame: &Frame<'_, '_, '_>,
    invoke: F,
    store: &mut Store,
    probe: &mut P,
) -> Option<bool>
    requires sound { IsExpression (plain.expression_of e.now) (scope_in frame.now) }
    requires fits { Fits frame.now.function.now.registers (view.expression_of e.now) }
    requires ready { IsReady frame.now store.old (P.bits probe.old) }
    requires invokes { Invokes frame.now P.bits P.leads (F.pre invoke) (F.post invoke) }
    ensures did { Did P.leads (steps.as_does steps.is_true (does.evaluate (activation_of frame.now)
        (view.expression_of e.now)) (state_of store.old)) result store.new probe.old probe.new }
    ensures kept { KeepsRows frame.now result store.old store.new }
    ensures bits { KeepsBits P.bits probe.old probe.new }
    ensures limits { KeepsLimits store.old store.new }
{
    match e {
        Expression::Not { operand, .. } => {
            let holds = truth(operand, frame, invoke, store, probe)?;
            Some(!holds)
        }
        Expression::Logic {
            operator,
            left,
            right,
            ..
        } => {
            let holds = truth(left, frame, invoke, store, probe)?;
            if goes_on(*operator, holds) {
                truth(right, frame, invoke, store, probe)
            } else {
                Some(holds)
            }
        }
        Expression::Probe {
            probe: mark,
            operand,
        } => match mark {
            Mark::Decision { register, base } => {
                frame.begin(*register, store);
                let outcome = truth(operand, frame, invoke, store, probe);
                frame.decide(outcome, *register, *base, store, probe);
                outcome
            }
            Mark::Condition {
                register,
                on_true,
                on_false,
            } => {
                let holds = truth(operand, frame, invoke, store, probe)?;
                frame.note(*register, *on_true, *on_false, holds, store);
                Some(holds)
            }
            Mark::Switch { .. } => {
                let number = other(e, frame, invoke, store, probe)?;
                Some(is_true(number))
            }
        },
        Expression::Binary {
            operator,
            of,
            left,
            right,
            ..
        } => match comparison(*operator) {
            Some(compared) => {
                let operands = in_order(left, right);
                let first = value(operands.0, frame, invoke, store, probe)?;
                let second = value(operands.1, frame, invoke, store, probe)?;
                Some(compare(compared, *of, first, second))
            }
            None => {
                let number = other(e, frame, invoke, store, probe)?;
                Some(is_true(number))
            }
        },
        Expression::Constant { .. }
        | Expression::Read { .. }
        | Expression::Unary { .. }
        | Expression::Convert { .. }
        | Expression::Choice { .. }
        | Expression::Call { .. }
        | Expression::Input { .. } => {
            let number = other(e, frame, invoke, store, probe)?;
            Some(is_true(number))
        }
    }
}

/// The value of an expression that gives no truth value by its form. Constants and scalars of the
/// activation, which most operands are, are read without a further call.
#[cycle(expressions)]
#[inline(always)]
fn other<P: Probe, F: Fn(Called<'_, '_, '_>, &mut Store, &mut P) -> Option<()> + Copy>(
    e: &Expression,
    frame: &Frame<'_, '_, '_>,
    invoke: F,
    store: &mut Store,
    probe: &mut P,
) -> Option<u64>
    requires sound { IsExpression (plain.expression_of e.now) (scope_in frame.now) }
    requires fits { Fits frame.now.function.now.registers (view.expression_of e.now) }
    requires ready { IsReady frame.now store.old (P.bits probe.old) }
    requires invokes { Invokes frame.now P.bits P.leads (F.pre invoke) (F.post invoke) }
    requires other { truths.is_logical (view.expression_of e.now) ≡ false }
    ensures did { Did P.leads (does.evaluate (activation_of frame.now) (view.expression_of e.now)
        (state_of store.old)) (option_map (number_of (type_of (plain.expression_of e.now))) result)
        store.new probe.old probe.new }
    ensures typed { IfSome result (Holds (type_of (plain.expression_of e.now))) }
    ensures kept { KeepsRows frame.now result store.old store.new }
    ensures bits { KeepsBits P.bits probe.old probe.new }
    ensures limits { KeepsLimits store.old store.new }
{
    match e {
        Expression::Constant { value, of, .. } => Some(word(*of, *value)),
        Expression::Read { place: object, of } => match object {
            Place::Local { slot, .. } => store.read(frame.base + slot.start, *of),
            Place::Static { .. }
            | Place::Parameter { .. }
            | Place::Item { .. }
            | Place::Member { .. } => inner(e, frame, invoke, store, probe),
        },
        Expression::Unary { .. }
        | Expression::Convert { .. }
        | Expression::Not { .. }
        | Expression::Binary { .. }
        | Expression::Logic { .. }
        | Expression::Choice { .. }
        | Expression::Call { .. }
        | Expression::Input { .. }
        | Expression::Probe { .. } => inner(e, frame, invoke, store, probe),
    }
}

/// The same, for every such expression. It stays a function of its own, so that a leaf costs no
/// large frame.
#[cycle(expressions)]
#[inline(never)]
fn inner<P: Probe, F: Fn(Called<'_, '_, '_>, &mut Store, &mut P) -> Option<()> + Copy>(
    e: &Expression,
    frame: &Frame<'_, '_, '_>,
    invoke: F,
    store: &mut Store,
    probe: &mut P,
) -> Option<u64>
    requires sound { IsExpression (plain.expression_of e.now) (scope_in frame.now) }
    requires fits { Fits frame.now.function.now.registers (view.expression_of e.now) }
    requires ready { IsReady frame.now store.old (P.bits probe.old) }
    requires invokes { Invokes frame.now P.bits P.leads (F.pre invoke) (F.post invoke) }
    requires other { truths.is_logical (view.expression_of e.now) ≡ false }
    ensures did { Did P.leads (does.evaluate (activation_of frame.now) (view.expression_of e.now)
        (state_of store.old)) (option_map (number_of (type_of (plain.expression_of e.now))) result)
        store.new probe.old probe.new }
    ensures typed { IfSome result (Holds (type_of (plain.expression_of e.now))) }
    ensures kept { KeepsRows frame.now result store.old store.new }
    ensures bits { KeepsBits P.bits probe.old probe.new }
    ensures limits { KeepsLimits store.old store.new }
{
    match e {
        Expression::Constant { value, of, .. } => Some(word(*of, *value)),
        Expression::Unary {
            operator,
            of,
            operand,
            ..
        } => {
            let number = value(operand, frame, invoke, store, probe)?;
            store.give(unary(*operator, *of, number))
        }
        Expression::Convert { to, operand, .. } => {
            let number = value(operand, frame, invoke, store, probe)?;
            Some(convert(*to, number))
        }
        Expression::Binary {
            operator,
            of,
            left,
            right,
            ..
        } => {
            let operands = in_order(left, right);
            let first = value(operands.0, frame, invoke, store, probe)?;
            let second = value(operands.1, frame, invoke, store, probe)?;
            store.give(operate(*operator, *of, first, second))
        }
        Expression::Choice {
            test,
            chosen,
            other,
            ..
        } => {
            let holds = truth(test, frame, invoke, store, probe)?;
            if holds {
                value(chosen, frame, invoke, store, probe)
            } else {
                value(other, frame, invoke, store, probe)
            }
        }
        Expression::Input { .. } => store.input(),
        Expression::Read { place: object, of } => {
            let at = place(object, frame, invoke, store, probe)?;
            store.read(at, *of)
        }
        Expression::Call { call: made, .. } => {
            call(made, frame, invoke, store, probe)?;
            store.number_given()
        }
        Expression::Probe {
            probe: mark,
            operand,
        } => match mark {
            Mark::Switch { register } => {
                let number = value(operand, frame, invoke, store, probe)?;
                frame.mark(*register, store);
                Some(number)
            }
            Mark::Decision { .. } => unreachable!(),
            Mark::Condition { .. } => unreachable!(),
        },
        Expression::Not { .. } => unreachable!(),
        Expression::Logic { .. } => unreachable!(),
    }
}

/// The first cell of a place.
#[cycle(expressions)]
pub(crate) fn place<P: Probe, F: Fn(Called<'_, '_, '_>, &mut Store, &mut P) -> Option<()> + Copy>(
    object: &Place,
    frame: &Frame<'_, '_, '_>,
    invoke: F,
    store: &mut Store,
    probe: &mut P,
) -> Option<u32>
    requires sound { IsPlace (plain.place_of object.now) (scope_in frame.now) }
    requires fits { FitsPlace frame.now.function.now.registers (view.place_of object.now) }
    requires ready { IsReady frame.now store.old (P.bits probe.old) }
    requires invokes { Invokes frame.now P.bits P.leads (F.pre invoke) (F.post invoke) }
    ensures did { Did P.leads
        (does.evaluate_place (activation_of frame.now) (view.place_of object.now)
        (state_of store.old))
        result store.new probe.old probe.new }
    ensures placed { IfSome result (λ k. IsPlaced (scope_in frame.now) (activation_of frame.now) k
        (place_type (scope_in frame.now) (plain.place_of object.now))) }
    ensures kept { KeepsRows frame.now result store.old store.new }
    ensures bits { KeepsBits P.bits probe.old probe.new }
    ensures limits { KeepsLimits store.old store.new }
{
    match object {
        Place::Local { slot, .. } => Some(frame.base + slot.start),
        Place::Static { slot, .. } => Some(slot.start),
        Place::Parameter {
            array,
            stride,
            index,
            ..
        } => {
            let number = value(index, frame, invoke, store, probe)?;
            frame.lent_item(*array, *stride, number, store)
        }
        Place::Item {
            array,
            length,
            stride,
            index,
            ..
        } => {
            let base = place(array, frame, invoke, store, probe)?;
            let number = value(index, frame, invoke, store, probe)?;
            store.item(base, *length, *stride, number)
        }
        Place::Member {
            structure,
            offset,
            ..
        } => {
            let base = place(structure, frame, invoke, store, probe)?;
            Some(base + *offset)
        }
    }
}

/// The place of a structure.
#[cycle(expressions)]
pub(crate) fn structure<
    P: Probe,
    F: Fn(Called<'_, '_, '_>, &mut Store, &mut P) -> Option<()> + Copy,
>(
    source: &Structure,
    frame: &Frame<'_, '_, '_>,
    invoke: F,
    store: &mut Store,
    probe: &mut P,
) -> Option<u32>
    requires sound { IsStructure (plain.structure_of source.now) (scope_in frame.now) }
    requires fits { FitsStructure frame.now.function.now.registers
        (view.structure_of source.now) }
    requires ready { IsReady frame.now store.old (P.bits probe.old) }
    requires invokes { Invokes frame.now P.bits P.leads (F.pre invoke) (F.post invoke) }
    ensures did { Did P.leads (does.evaluate_structure (activation_of frame.now)
        (view.structure_of source.now) (state_of store.old)) result store.new
        probe.old probe.new }
    ensures placed { IfSome result (λ k. IsPlaced (scope_in frame.now) (activation_of frame.now) k
        (structure_type (scope_in frame.now) (plain.structure_of source.now))) }
    ensures kept { KeepsRows frame.now result store.old store.new }
    ensures bits { KeepsBits P.bits probe.old probe.new }
    ensures limits { KeepsLimits store.old store.new }
{
    match source {
        Structure::Stored { place: object } => place(object, frame, invoke, store, probe),
        Structure::Returned { call: made } => {
            call(made, frame, invoke, store, probe)?;
            store.structure_given()
        }
    }
}

/// A call, whose value is kept.
#[cycle(expressions)]
pub(crate) fn call<P: Probe, F: Fn(Called<'_, '_, '_>, &mut Store, &mut P) -> Option<()> + Copy>(
    made: &FunctionCall,
    frame: &Frame<'_, '_, '_>,
    invoke: F,
    store: &mut Store,
    probe: &mut P,
) -> Option<()>
    requires sound { IsAnyCall (plain.call_of made.now) (scope_in frame.now) }
    requires fits { FitsCall frame.now.function.now.registers (view.call_of made.now) }
    requires ready { IsReady frame.now store.old (P.bits probe.old) }
    requires invokes { Invokes frame.now P.bits P.leads (F.pre invoke) (F.post invoke) }
    ensures did { Did P.leads (does.evaluate_call (activation_of frame.now) (view.call_of made.now)
        (state_of store.old)) (option_map (λ _. given_of store.new.given) result) store.new
        probe.old probe.new }
    ensures given { IfSome result (λ _. IsResultOf
        (into_of (activation_of frame.now) (plain.call_of made.now))
        (result_in (scope_in frame.now) (plain.call_of made.now)) store.new.given) }
    ensures kept { KeepsRows frame.now result store.old store.new }
    ensures bits { KeepsBits P.bits probe.old probe.new }
    ensures limits { KeepsLimits store.old store.new }
{
    let mut passed = ArrayVec::new();
    arguments(&made.arguments, frame, invoke, &mut passed, store, probe)?;
    let called = Called {
        program: frame.program,
        shapes: frame.shapes,
        depth: frame.depth,
        levels: frame.levels,
        function: made.function,
        into: frame.into(made.result),
        passed: passed.as_slice(),
    };
    invoke(called, store, probe)
}

/// The arguments of a call, from left to right.
#[cycle(expressions)]
fn arguments<P: Probe, F: Fn(Called<'_, '_, '_>, &mut Store, &mut P) -> Option<()> + Copy>(
    trees: &[Argument],
    frame: &Frame<'_, '_, '_>,
    invoke: F,
    passed: &mut ArrayVec<Passed, MOST_PASSED>,
    store: &mut Store,
    probe: &mut P,
) -> Option<()>
    requires sound { AreSomeArguments (plain.arguments_from (map plain.argument_of trees.now))
        (scope_in frame.now) }
    requires fits { FitArguments frame.now.function.now.registers
        (view.arguments_from (map view.argument_of trees.now)) }
    requires few { length trees.now ≤ most_parameters }
    requires none { passed.old.items ≡ [] }
    requires ready { IsReady frame.now store.old (P.bits probe.old) }
    requires invokes { Invokes frame.now P.bits P.leads (F.pre invoke) (F.post invoke) }
    ensures did { Did P.leads (does.evaluate_arguments (activation_of frame.now)
        (view.arguments_from (map view.argument_of trees.now)) (state_of store.old))
        (option_map (λ _. map passed_of passed.new.items) result) store.new
        probe.old probe.new }
    ensures typed { IfSome result (λ _. (types : List IntType) →
        AreTyped (scope_in frame.now) (activation_of frame.now) types →
        ArePassedFor (scope_in frame.now) types passed.new.items
        (plain.arguments_from (map plain.argument_of trees.now))) }
    ensures kept { KeepsRows frame.now result store.old store.new }
    ensures bits { KeepsBits P.bits probe.old probe.new }
    ensures limits { KeepsLimits store.old store.new }
{
    for tree in trees {
        let given = argument(tree, frame, invoke, store, probe)?;
        passed.push(given);
    }
    Some(())
}

/// An argument.
#[cycle(expressions)]
fn argument<P: Probe, F: Fn(Called<'_, '_, '_>, &mut Store, &mut P) -> Option<()> + Copy>(
    tree: &Argument,
    frame: &Frame<'_, '_, '_>,
    invoke: F,
    store: &mut Store,
    probe: &mut P,
) -> Option<Passed>
    requires sound { IsSomeArgument (plain.argument_of tree.now) (scope_in frame.now) }
    requires fits { FitsArgument frame.now.function.now.registers (view.argument_of tree.now) }
    requires ready { IsReady frame.now store.old (P.bits probe.old) }
    requires invokes { Invokes frame.now P.bits P.leads (F.pre invoke) (F.post invoke) }
    ensures did { Did P.leads (does.evaluate_argument (activation_of frame.now)
        (view.argument_of tree.now) (state_of store.old)) (option_map passed_of result) store.new
        probe.old probe.new }
    ensures typed { IfSome result (λ x. (types : List IntType) →
        AreTyped (scope_in frame.now) (activation_of frame.now) types →
        IsPassedFor (scope_in frame.now) types x (plain.argument_of tree.now)) }
    ensures kept { KeepsRows frame.now result store.old store.new }
    ensures bits { KeepsBits P.bits probe.old probe.new }
    ensures limits { KeepsLimits store.old store.new }
{
    match tree {
        Argument::Number { value: e } => {
            let word = value(e, frame, invoke, store, probe)?;
            Some(Passed::Number {
                of: e.integer_type(),
                word,
            })
        }
        Argument::Structure {
            value: source,
            copy,
        } => {
            let from = structure(source, frame, invoke, store, probe)?;
            let at = frame.copied(from, *copy, store);
            Some(Passed::Structure { at })
        }
        Argument::Array {
            place: object,
            length,
        } => {
            let base = place(object, frame, invoke, store, probe)?;
            Some(Passed::Array(Lent {
                base,
                length: *length,
            }))
        }
        Argument::Again { array, .. } => Some(Passed::Array(frame.lent(*array))),
    }
}
