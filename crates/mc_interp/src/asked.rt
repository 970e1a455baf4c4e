//! Tests of `if` statements and loops. Decisions that ask about objects of the activation and
//! constants alone need no walk of the tree.
ghost use Rattle.std.specs.Prelude.{◌≡◌, option_map, IfSome};
ghost use Rattle.mc_span.specs.declared.span.Span.{Span};
ghost use Rattle.mc_typed.specs.declared.operators.Operator.TheVariants.{Binary};
ghost use Rattle.mc_typed.specs.Sound.{HasOperands, IsExpression, type_of};
ghost use Rattle.interp_words.specs.Words.{number_of, Holds};
ghost use Rattle.mc_steps.specs.Expressions as steps;
ghost use Rattle.mc_probe.specs.Erase.{erase_expression};
ghost use Rattle.mc_probe.specs.Expressions as does;
ghost use Rattle.mc_probe.specs.Tree as probed;
ghost use Rattle.mc_probe.specs.WellFormed.{Fits};
ghost use Rattle.mc_interp.specs.Calls.{Invokes};
ghost use Rattle.mc_interp.specs.Frames.{activation_of, scope_in, IsReady};
ghost use Rattle.mc_interp.specs.Stores.{state_of, told, Did};
ghost use Rattle.mc_interp.specs.Views as prepared;
ghost use Rattle.mc_interp.specs.Keeps.{KeepsBits, KeepsLimits, KeepsRows};

use crate::expressions::truth;
use crate::frame::{Called, Frame};
use crate::prepared::{Leaf, Question, Relation, Test};
use crate::steps::goes_on;
use crate::store::Store;
use hit_sink::Probe;
use interp_steps::is_true;
use interp_words::{compare, word};
use mc_typed::LogicOperator;
use mc_value::IntType;

/// The value of a leaf, where its object is set, or the run stops.
#[inline(always)]
pub(crate) fn leaf(one: &Leaf, frame: &Frame<'_, '_, '_>, store: &mut Store) -> Option<u64>
    requires sound { IsExpression (erase_expression (prepared.leaf_of one.now))
        (scope_in frame.now) }
    requires ready { IsReady frame.now store.old frame.now.program.now.bits }
    ensures ran { does.evaluate (activation_of frame.now) (prepared.leaf_of one.now)
        (state_of store.old) ≡ told (option_map
        (number_of (type_of (erase_expression (prepared.leaf_of one.now)))) result) store.new }
    ensures typed { IfSome result (Holds (type_of (erase_expression (prepared.leaf_of one.now)))) }
    ensures kept { KeepsRows frame.now result store.old store.new }
    ensures limits { KeepsLimits store.old store.new }
{
    match one {
        Leaf::Local { slot, of, .. } => store.read(frame.base + slot.start, *of),
        Leaf::Constant { value, of, .. } => Some(word(*of, *value)),
    }
}

/// Whether a relation holds between two leaves, of which the left one is evaluated first.
#[inline(always)]
fn related(
    relation: Relation,
    of: IntType,
    left: &Leaf,
    right: &Leaf,
    frame: &Frame<'_, '_, '_>,
    store: &mut Store,
) -> Option<bool>
    requires left_sound { IsExpression (erase_expression (prepared.leaf_of left.now))
        (scope_in frame.now) }
    requires right_sound { IsExpression (erase_expression (prepared.leaf_of right.now))
        (scope_in frame.now) }
    requires operands { HasOperands (Binary (prepared.operator_of relation)) of
        (type_of (erase_expression (prepared.leaf_of left.now)))
        (type_of (erase_expression (prepared.leaf_of right.now))) }
    requires ready { IsReady frame.now store.old frame.now.program.now.bits }
    ensures ran { (span : Span) → steps.as_does steps.is_true (does.evaluate
        (activation_of frame.now) (probed.Binary (Binary (prepared.operator_of relation)) of
        (prepared.leaf_of left.now) (prepared.leaf_of right.now) span)) (state_of store.old)
        ≡ told result store.new }
    ensures kept { KeepsRows frame.now result store.old store.new }
    ensures limits { KeepsLimits store.old store.new }
{
    let first = leaf(left, frame, store)?;
    let second = leaf(right, frame, store)?;
    Some(compare(relation.operator(), of, first, second))
}

/// Whether what a decision asks holds. It is inlined, so that a condition costs no call; `negated`
/// and `joined`, through which it calls itself, are not.
#[cycle(answers)]
#[inline(always)]
fn answer(question: &Question, frame: &Frame<'_, '_, '_>, store: &mut Store) -> Option<bool>
    requires sound { IsExpression (erase_expression (prepared.question_of question.now))
        (scope_in frame.now) }
    requires fits { Fits frame.now.function.now.registers (prepared.question_of question.now) }
    requires ready { IsReady frame.now store.old frame.now.program.now.bits }
    ensures ran { steps.as_does steps.is_true (does.evaluate (activation_of frame.now)
        (prepared.question_of question.now)) (state_of store.old) ≡ told result store.new }
    ensures kept { KeepsRows frame.now result store.old store.new }
    ensures limits { KeepsLimits store.old store.new }
{
    match question {
        Question::Compared {
            note,
            relation,
            of,
            left,
            right,
            ..
        } => {
            let holds = related(*relation, *of, left, right, frame, store)?;
            frame.note(note.register, note.on_true, note.on_false, holds, store);
            Some(holds)
        }
        Question::Leaf { note, leaf: asked } => {
            let number = leaf(asked, frame, store)?;
            let is_set = is_true(number);
            frame.note(note.register, note.on_true, note.on_false, is_set, store);
            Some(is_set)
        }
        Question::Not { operand, .. } => negated(operand, frame, store),
        Question::Logic {
            operator,
            left,
            right,
            ..
        } => joined(*operator, left, right, frame, store),
    }
}

/// `!` of what is asked (C17 6.5.3.3p5).
#[cycle(answers)]
#[inline(never)]
fn negated(operand: &Question, frame: &Frame<'_, '_, '_>, store: &mut Store) -> Option<bool>
    requires sound { IsExpression (erase_expression (prepared.question_of operand.now))
        (scope_in frame.now) }
    requires fits { Fits frame.now.function.now.registers (prepared.question_of operand.now) }
    requires ready { IsReady frame.now store.old frame.now.program.now.bits }
    ensures ran { (span : Span) → steps.as_does steps.is_true (does.evaluate
        (activation_of frame.now) (probed.Not (prepared.question_of operand.now) span))
        (state_of store.old) ≡ told result store.new }
    ensures kept { KeepsRows frame.now result store.old store.new }
    ensures limits { KeepsLimits store.old store.new }
{
    let holds = answer(operand, frame, store)?;
    Some(!holds)
}

/// `&&` or `||` of two questions, of which the second one is asked where the first one leaves it
/// open (C17 6.5.13p4, 6.5.14p4).
#[cycle(answers)]
#[inline(never)]
fn joined(
    operator: LogicOperator,
    left: &Question,
    right: &Question,
    frame: &Frame<'_, '_, '_>,
    store: &mut Store,
) -> Option<bool>
    requires left_sound { IsExpression (erase_expression (prepared.question_of left.now))
        (scope_in frame.now) }
    requires right_sound { IsExpression (erase_expression (prepared.question_of right.now))
        (scope_in frame.now) }
    requires left_fits { Fits frame.now.function.now.registers (prepared.question_of left.now) }
    requires right_fits { Fits frame.now.function.now.registers (prepared.question_of right.now) }
    requires ready { IsReady frame.now store.old frame.now.program.now.bits }
    ensures ran { (span : Span) → steps.as_does steps.is_true (does.evaluate
        (activation_of frame.now) (probed.Logic operator (prepared.question_of left.now)
        (prepared.question_of right.now) span)) (state_of store.old) ≡ told result store.new }
    ensures kept { KeepsRows frame.now result store.old store.new }
    ensures limits { KeepsLimits store.old store.new }
{
    let holds = answer(left, frame, store)?;
    if goes_on(operator, holds) {
        answer(right, frame, store)
    } else {
        Some(holds)
    }
}

/// Whether a test differs from 0. A decision begins with its register at 0, and the bit of its path
/// is hit where it comes out.
#[inline(always)]
pub(crate) fn tested<P: Probe, F: Fn(Called<'_, '_, '_>, &mut Store, &mut P) -> Option<()> + Copy>(
    test: &Test<'_>,
    frame: &Frame<'_, '_, '_>,
    invoke: F,
    store: &mut Store,
    probe: &mut P,
) -> Option<bool>
    requires sound { IsExpression (erase_expression (prepared.test_of test.now))
        (scope_in frame.now) }
    requires fits { Fits frame.now.function.now.registers (prepared.test_of test.now) }
    requires ready { IsReady frame.now store.old (P.bits probe.old) }
    requires invokes { Invokes frame.now P.bits P.leads (F.pre invoke) (F.post invoke) }
    ensures did { Did P.leads (steps.as_does steps.is_true (does.evaluate (activation_of frame.now)
        (prepared.test_of test.now)) (state_of store.old)) result store.new probe.old probe.new }
    ensures kept { KeepsRows frame.now result store.old store.new }
    ensures bits { KeepsBits P.bits probe.old probe.new }
    ensures limits { KeepsLimits store.old store.new }
{
    match test {
        Test::Asked {
            register,
            base,
            question,
        } => {
            frame.begin(*register, store);
            let outcome = answer(question, frame, store);
            frame.decide(outcome, *register, *base, store, probe);
            outcome
        }
        Test::Walked { tree } => truth(tree, frame, invoke, store, probe),
    }
}
