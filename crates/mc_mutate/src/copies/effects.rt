//! Effects of mutants.
ghost use Rattle.std.specs.Prelude.{◌≡◌, map, IfOk};
ghost use Rattle.mc_typed.specs.Tree as typed;
ghost use Rattle.mc_typed.specs.Views.{effect_of, expression_of, place_of, structure_of};
ghost use Rattle.mc_probe.specs.Views as probed;
ghost use Rattle.mc_probe.specs.Bare.{bare_effect};
ghost use Rattle.decide_rules.specs.Nodes as nodes;
ghost use Rattle.mc_mutate.specs.steps.Search.{inside_parts, searched};
ghost use Rattle.mc_mutate.specs.steps.Changed.{effect_changed, effects_changed};

use crate::copies::expressions::{call, expression, place, structure};
use crate::search::Sought;
use decide_rules::Role;
use mc_typed::{Effect, Expression, Operator, Place, Span, Structure};
use mc_value::IntType;
use std::alloc::{AllocError, Global};

/// An assignment with the change that is sought.
fn assign(
    alloc: Global,
    sought: &mut Sought,
    target: &Place,
    of: IntType,
    value: &Expression,
    span: Span,
) -> Result<Effect, AllocError>
    ensures tree { IfOk result (λ c. probed.effect_of c
        ≡ bare_effect (effect_changed
        (typed.Assign (place_of target.now) of (expression_of value.now) span)
        sought.old)) }
    ensures sought { IfOk result (λ _. sought.new
        ≡ searched Role.Plain (nodes.effect
        (typed.Assign (place_of target.now) of (expression_of value.now) span))
        sought.old) }
{
    let target = place(alloc, sought, target)?;
    let value = expression(alloc, sought, Role::Plain, value)?;
    Ok(Effect::Assign {
        target,
        of,
        value,
        span,
    })
}

/// A compound assignment, an increment or a decrement.
fn update(
    alloc: Global,
    sought: &mut Sought,
    target: &Place,
    of: IntType,
    operator: Operator,
    common: IntType,
    value: &Expression,
    span: Span,
) -> Result<Effect, AllocError>
    ensures tree { IfOk result (λ c. probed.effect_of c
        ≡ bare_effect (effect_changed
        (typed.Update (place_of target.now) of operator common (expression_of value.now) span)
        sought.old)) }
    ensures sought { IfOk result (λ _. sought.new
        ≡ searched Role.Plain (nodes.effect
        (typed.Update (place_of target.now) of operator common (expression_of value.now) span))
        sought.old) }
{
    let target = place(alloc, sought, target)?;
    let value = expression(alloc, sought, Role::Plain, value)?;
    Ok(Effect::Update {
        target,
        of,
        operator,
        common,
        value,
        span,
    })
}

/// An assignment of a structure.
fn structure_copy(
    alloc: Global,
    sought: &mut Sought,
    target: &Place,
    value: &Structure,
    cells: u32,
    span: Span,
) -> Result<Effect, AllocError>
    ensures tree { IfOk result (λ c. probed.effect_of c
        ≡ bare_effect (effect_changed
        (typed.Copy (place_of target.now) (structure_of value.now) cells span)
        sought.old)) }
    ensures sought { IfOk result (λ _. sought.new
        ≡ searched Role.Plain (nodes.effect
        (typed.Copy (place_of target.now) (structure_of value.now) cells span))
        sought.old) }
{
    let target = place(alloc, sought, target)?;
    let value = structure(alloc, sought, value)?;
    Ok(Effect::Copy {
        target,
        value,
        cells,
        span,
    })
}

/// A number whose value is not used.
fn number(
    alloc: Global,
    sought: &mut Sought,
    value: &Expression,
    whole: bool,
) -> Result<Effect, AllocError>
    ensures tree { IfOk result (λ c. probed.effect_of c
        ≡ bare_effect (effect_changed
        (typed.NumberEffect (expression_of value.now) whole)
        sought.old)) }
    ensures sought { IfOk result (λ _. sought.new
        ≡ searched Role.Plain (nodes.effect
        (typed.NumberEffect (expression_of value.now) whole))
        sought.old) }
{
    let value = expression(alloc, sought, Role::Plain, value)?;
    Ok(Effect::Number { value, whole })
}

/// A structure whose value is not used.
fn whole_structure(
    alloc: Global,
    sought: &mut Sought,
    value: &Structure,
    whole: bool,
) -> Result<Effect, AllocError>
    ensures tree { IfOk result (λ c. probed.effect_of c
        ≡ bare_effect (effect_changed
        (typed.StructureEffect (structure_of value.now) whole)
        sought.old)) }
    ensures sought { IfOk result (λ _. sought.new
        ≡ searched Role.Plain (nodes.effect
        (typed.StructureEffect (structure_of value.now) whole))
        sought.old) }
{
    let value = structure(alloc, sought, value)?;
    Ok(Effect::Structure { value, whole })
}

/// An output with the change that is sought.
fn output(
    alloc: Global,
    sought: &mut Sought,
    value: &Expression,
    span: Span,
) -> Result<Effect, AllocError>
    ensures tree { IfOk result (λ c. probed.effect_of c
        ≡ bare_effect (effect_changed
        (typed.Output (expression_of value.now) span)
        sought.old)) }
    ensures sought { IfOk result (λ _. sought.new
        ≡ searched Role.Plain (nodes.effect
        (typed.Output (expression_of value.now) span))
        sought.old) }
{
    let value = expression(alloc, sought, Role::Plain, value)?;
    Ok(Effect::Output { value, span })
}

/// An effect with the change that is sought. A function clears all its values as it begins, so most
/// kinds of effects have a function of their own.
#[cycle(change)]
pub(super) fn effect(
    alloc: Global,
    sought: &mut Sought,
    tree: &Effect,
) -> Result<Effect, AllocError>
    ensures tree { IfOk result (λ c.
        probed.effect_of c ≡ bare_effect (effect_changed (effect_of tree.now) sought.old)) }
    ensures sought { IfOk result (λ _.
        sought.new ≡ searched Role.Plain (nodes.effect (effect_of tree.now)) sought.old) }
{
    match tree {
        Effect::Assign {
            target,
            of,
            value,
            span,
        } => assign(alloc, sought, target, *of, value, *span),
        Effect::Update {
            target,
            of,
            operator,
            common,
            value,
            span,
        } => update(alloc, sought, target, *of, *operator, *common, value, *span),
        Effect::Copy {
            target,
            value,
            cells,
            span,
        } => structure_copy(alloc, sought, target, value, *cells, *span),
        Effect::Number { value, whole } => number(alloc, sought, value, *whole),
        Effect::Structure { value, whole } => whole_structure(alloc, sought, value, *whole),
        Effect::Call { call: made } => {
            let call = call(alloc, sought, made)?;
            Ok(Effect::Call { call })
        }
        Effect::Output { value, span } => output(alloc, sought, value, *span),
        Effect::Choice {
            test,
            chosen,
            other,
            span,
        } => {
            let test = expression(alloc, sought, Role::Controlling, test)?;
            let chosen = boxed(alloc, sought, chosen)?;
            let other = boxed(alloc, sought, other)?;
            Ok(Effect::Choice {
                test,
                chosen,
                other,
                span: *span,
            })
        }
        Effect::Discard { operand, span } => {
            let operand = boxed(alloc, sought, operand)?;
            Ok(Effect::Discard {
                operand,
                span: *span,
            })
        }
    }
}

/// An effect with the change that is sought, on the heap.
#[cycle(change)]
fn boxed(alloc: Global, sought: &mut Sought, tree: &Effect) -> Result<Box<Effect>, AllocError>
    ensures tree { IfOk result (λ c.
        probed.effect_of c.value ≡ bare_effect (effect_changed (effect_of tree.now) sought.old)) }
    ensures sought { IfOk result (λ _.
        sought.new ≡ searched Role.Plain (nodes.effect (effect_of tree.now)) sought.old) }
{
    let copy = effect(alloc, sought, tree)?;
    let copy = Box::new(alloc, copy)?;
    Ok(copy)
}

/// Effects with the change that is sought.
pub(super) fn effects(
    alloc: Global,
    sought: &mut Sought,
    trees: &[Effect],
) -> Result<Vec<Effect>, AllocError>
    ensures tree { IfOk result (λ c. map probed.effect_of c.items
        ≡ map bare_effect (effects_changed (map effect_of trees.now) sought.old)) }
    ensures sought { IfOk result (λ _.
        sought.new ≡ inside_parts (nodes.effects (map effect_of trees.now)) sought.old) }
{
    let mut copies = Vec::with_capacity(alloc, trees.len())?;
    for tree in trees {
        let copy = effect(alloc, sought, tree)?;
        copies.push(copy)?;
    }
    Ok(copies)
}
