//! Expressions with their probes.
ghost use Rattle.std.specs.Prelude.{◌≡◌, ◌+◌, ◌-◌, ◌<◌, ◌^◌, map, min, IfOk};
ghost use Rattle.mc_typed.specs.Views as plain;
ghost use Rattle.decide_rules.specs.Conditions.{width};
ghost use Rattle.decide_rules.specs.Counts.{roots, roots_in};
ghost use Rattle.decide_rules.specs.Nodes as nodes;
ghost use Rattle.decide_rules.specs.declared.role.Role.TheVariants as role;
ghost use Rattle.mc_probe.specs.BitMaps.{map_of};
ghost use Rattle.mc_probe.specs.Table.{InTree, Loose, put, put_argument, put_arguments, put_call, put_place, put_structure};
ghost use Rattle.mc_probe.specs.Views as probed;
ghost use Rattle.mc_instrument.specs.steps.Inside as inside_rules;

use crate::copies::counters::count;
use crate::copies::walk::{Walk, with_probe};
use decide_rules::full_operator;
use instrument_bits::{is_root, is_root_as_test};
use mc_typed::{Argument, Expression, FunctionCall, Place, Probe, Structure};
use std::alloc::AllocError;

/// A copy of a controlling expression, or of the first operand of `?:`. `next` is the number of the
/// next decision of the function.
#[cycle(put)]
#[tactic(auto, using(crate::proofs::Rooted::root_copied, crate::proofs::Rooted::inside_copied, crate::proofs::Rooted::root_counted, crate::proofs::Rooted::inside_counted, crate::proofs::Rooted::root_fits, crate::proofs::Rooted::inside_fits))]
pub(crate) fn test(
    walk: &Walk<'_>,
    next: &mut u32,
    tree: &Expression,
) -> Result<Expression, AllocError>
    requires { next.now
        + roots role.Controlling (nodes.expression (plain.expression_of tree.now)) < 2 ^ 32 }
    ensures copy { IfOk result (λ c. probed.expression_of c
        ≡ put (map_of walk.now.map.now) walk.now.first (Loose role.Controlling) next.old
        (plain.expression_of tree.now)) }
    ensures next { IfOk result (λ _. next.new
        ≡ next.old + roots role.Controlling (nodes.expression (plain.expression_of tree.now))) }
{
    if is_root_as_test(tree) {
        root(walk, next, tree)
    } else {
        inside(walk, next, tree)
    }
}

/// A copy of another expression that stands loose.
#[cycle(put)]
#[tactic(auto, using(crate::proofs::Rooted::root_copied, crate::proofs::Rooted::inside_copied, crate::proofs::Rooted::root_counted, crate::proofs::Rooted::inside_counted, crate::proofs::Rooted::root_fits, crate::proofs::Rooted::inside_fits))]
pub(crate) fn expression(
    walk: &Walk<'_>,
    next: &mut u32,
    tree: &Expression,
) -> Result<Expression, AllocError>
    requires { next.now
        + roots role.Plain (nodes.expression (plain.expression_of tree.now)) < 2 ^ 32 }
    ensures copy { IfOk result (λ c. probed.expression_of c
        ≡ put (map_of walk.now.map.now) walk.now.first (Loose role.Plain) next.old
        (plain.expression_of tree.now)) }
    ensures next { IfOk result (λ _. next.new
        ≡ next.old + roots role.Plain (nodes.expression (plain.expression_of tree.now))) }
{
    if is_root(tree) {
        root(walk, next, tree)
    } else {
        inside(walk, next, tree)
    }
}

/// The same on the heap. What is boxed passes through this function alone: a function clears all
/// its values as it begins, and that would be much of the time that a copy takes.
#[cycle(put)]
#[inline(never)]
fn boxed(walk: &Walk<'_>, next: &mut u32, tree: &Expression) -> Result<Box<Expression>, AllocError>
    requires { next.now
        + roots role.Plain (nodes.expression (plain.expression_of tree.now)) < 2 ^ 32 }
    ensures copy { IfOk result (λ c. probed.expression_of c.value
        ≡ put (map_of walk.now.map.now) walk.now.first (Loose role.Plain) next.old
        (plain.expression_of tree.now)) }
    ensures next { IfOk result (λ _. next.new
        ≡ next.old + roots role.Plain (nodes.expression (plain.expression_of tree.now))) }
{
    let copy = expression(walk, next, tree)?;
    let copy = Box::new(walk.alloc, copy)?;
    Ok(copy)
}

/// A copy of the root of a decision.
#[cycle(put)]
fn root(walk: &Walk<'_>, next: &mut u32, tree: &Expression) -> Result<Expression, AllocError>
    requires { next.now + 1
        + roots role.Inner (nodes.expression (plain.expression_of tree.now)) < 2 ^ 32 }
    ensures copy { IfOk result (λ c. probed.expression_of c
        ≡ inside_rules.root (map_of walk.now.map.now) walk.now.first next.old
        (plain.expression_of tree.now)) }
    ensures next { IfOk result (λ _. next.new
        ≡ next.old + 1 + roots role.Inner (nodes.expression (plain.expression_of tree.now))) }
{
    let register = count(next);
    let base = walk.base(register);
    let mut condition = 0;
    let operand = in_tree(walk, next, register, &mut condition, tree)?;
    with_probe(walk.alloc, Probe::Decision { register, base }, operand)
}

/// A copy of a part of the tree of decision `k`, which begins with a condition. Its number goes on
/// as far as its type: no decision of the map has so many.
#[cycle(put)]
#[tactic(auto, using(crate::proofs::Room::logic_counted))]
fn in_tree(
    walk: &Walk<'_>,
    next: &mut u32,
    k: u32,
    condition: &mut u32,
    tree: &Expression,
) -> Result<Expression, AllocError>
    requires { next.now
        + roots role.Inner (nodes.expression (plain.expression_of tree.now)) < 2 ^ 32 }
    ensures copy { IfOk result (λ c. probed.expression_of c
        ≡ put (map_of walk.now.map.now) walk.now.first (InTree k condition.old) next.old
        (plain.expression_of tree.now)) }
    ensures next { IfOk result (λ _. next.new
        ≡ next.old + roots role.Inner (nodes.expression (plain.expression_of tree.now))) }
    ensures condition { IfOk result (λ _. condition.new
        ≡ min (condition.old + width (nodes.expression (plain.expression_of tree.now)))
        (2 ^ 32 - 1)) }
{
    match tree {
        Expression::Not { operand, span } => {
            let operand = boxed_part(walk, next, k, condition, operand)?;
            Ok(Expression::Not {
                operand,
                span: *span,
            })
        }
        Expression::Logic {
            operator,
            left,
            right,
            span,
        } => {
            let left = boxed_part(walk, next, k, condition, left)?;
            let right = boxed_part(walk, next, k, condition, right)?;
            Ok(Expression::Logic {
                operator: *operator,
                left,
                right,
                span: *span,
            })
        }
        Expression::Binary {
            operator,
            of,
            left: first,
            right: second,
            span,
        } => match full_operator(*operator, first, second) {
            Some(_) => {
                let left = boxed_part(walk, next, k, condition, first)?;
                let right = boxed_part(walk, next, k, condition, second)?;
                Ok(Expression::Binary {
                    operator: *operator,
                    of: *of,
                    left,
                    right,
                    span: *span,
                })
            }
            None => one_condition(walk, next, k, condition, tree),
        },
        Expression::Probe { operand, .. } => in_tree(walk, next, k, condition, operand),
        Expression::Constant { .. }
        | Expression::Read { .. }
        | Expression::Unary { .. }
        | Expression::Convert { .. }
        | Expression::Choice { .. }
        | Expression::Call { .. }
        | Expression::Input { .. } => one_condition(walk, next, k, condition, tree),
    }
}

/// The same on the heap.
#[cycle(put)]
#[inline(never)]
fn boxed_part(
    walk: &Walk<'_>,
    next: &mut u32,
    k: u32,
    condition: &mut u32,
    tree: &Expression,
) -> Result<Box<Expression>, AllocError>
    requires { next.now
        + roots role.Inner (nodes.expression (plain.expression_of tree.now)) < 2 ^ 32 }
    ensures copy { IfOk result (λ c. probed.expression_of c.value
        ≡ put (map_of walk.now.map.now) walk.now.first (InTree k condition.old) next.old
        (plain.expression_of tree.now)) }
    ensures next { IfOk result (λ _. next.new
        ≡ next.old + roots role.Inner (nodes.expression (plain.expression_of tree.now))) }
    ensures condition { IfOk result (λ _. condition.new
        ≡ min (condition.old + width (nodes.expression (plain.expression_of tree.now)))
        (2 ^ 32 - 1)) }
{
    let copy = in_tree(walk, next, k, condition, tree)?;
    let copy = Box::new(walk.alloc, copy)?;
    Ok(copy)
}

/// A copy of a condition of decision `k`.
#[cycle(put)]
fn one_condition(
    walk: &Walk<'_>,
    next: &mut u32,
    k: u32,
    condition: &mut u32,
    tree: &Expression,
) -> Result<Expression, AllocError>
    requires { next.now
        + inside_rules.inner_roots (nodes.expression (plain.expression_of tree.now)) < 2 ^ 32 }
    ensures copy { IfOk result (λ c. probed.expression_of c
        ≡ inside_rules.condition (map_of walk.now.map.now) walk.now.first k condition.old next.old
        (plain.expression_of tree.now)) }
    ensures next { IfOk result (λ _. next.new
        ≡ next.old + inside_rules.inner_roots (nodes.expression (plain.expression_of tree.now))) }
    ensures condition { IfOk result (λ _.
        condition.new ≡ min (condition.old + 1) (2 ^ 32 - 1)) }
{
    let number = instrument_bits::count(condition);
    let on_false = walk.increment(k, number);
    let operand = inside(walk, next, tree)?;
    let probe = Probe::Condition {
        register: k,
        on_true: 0,
        on_false,
    };
    with_probe(walk.alloc, probe, operand)
}

/// A copy of an expression with the probes of its parts.
#[cycle(put)]
fn inside(walk: &Walk<'_>, next: &mut u32, tree: &Expression) -> Result<Expression, AllocError>
    requires { next.now
        + inside_rules.inner_roots (nodes.expression (plain.expression_of tree.now)) < 2 ^ 32 }
    ensures copy { IfOk result (λ c. probed.expression_of c
        ≡ inside_rules.inside (map_of walk.now.map.now) walk.now.first next.old
        (plain.expression_of tree.now)) }
    ensures next { IfOk result (λ _. next.new
        ≡ next.old + inside_rules.inner_roots (nodes.expression (plain.expression_of tree.now))) }
{
    match tree {
        Expression::Constant { value, of, span } => Ok(Expression::Constant {
            value: *value,
            of: *of,
            span: *span,
        }),
        Expression::Input { span } => Ok(Expression::Input { span: *span }),
        Expression::Read { place: object, of } => {
            let place = place(walk, next, object)?;
            Ok(Expression::Read { place, of: *of })
        }
        Expression::Unary {
            operator,
            of,
            operand,
            span,
        } => {
            let operand = boxed(walk, next, operand)?;
            Ok(Expression::Unary {
                operator: *operator,
                of: *of,
                operand,
                span: *span,
            })
        }
        Expression::Convert {
            to,
            written,
            operand,
            span,
        } => {
            let operand = boxed(walk, next, operand)?;
            Ok(Expression::Convert {
                to: *to,
                written: *written,
                operand,
                span: *span,
            })
        }
        Expression::Not { operand, span } => {
            let operand = boxed(walk, next, operand)?;
            Ok(Expression::Not {
                operand,
                span: *span,
            })
        }
        Expression::Binary {
            operator,
            of,
            left,
            right,
            span,
        } => {
            let left = boxed(walk, next, left)?;
            let right = boxed(walk, next, right)?;
            Ok(Expression::Binary {
                operator: *operator,
                of: *of,
                left,
                right,
                span: *span,
            })
        }
        Expression::Logic {
            operator,
            left,
            right,
            span,
        } => {
            let left = boxed(walk, next, left)?;
            let right = boxed(walk, next, right)?;
            Ok(Expression::Logic {
                operator: *operator,
                left,
                right,
                span: *span,
            })
        }
        Expression::Choice {
            test: first,
            chosen,
            other,
            of,
            span,
        } => {
            let test = Box::new(walk.alloc, test(walk, next, first)?)?;
            let chosen = boxed(walk, next, chosen)?;
            let other = boxed(walk, next, other)?;
            Ok(Expression::Choice {
                test,
                chosen,
                other,
                of: *of,
                span: *span,
            })
        }
        Expression::Call { call: made, of } => {
            let call = call(walk, next, made)?;
            Ok(Expression::Call { call, of: *of })
        }
        Expression::Probe { operand, .. } => inside(walk, next, operand),
    }
}

/// A copy of a place.
#[cycle(put)]
pub(crate) fn place(walk: &Walk<'_>, next: &mut u32, tree: &Place) -> Result<Place, AllocError>
    requires { next.now + roots role.Plain (nodes.place (plain.place_of tree.now)) < 2 ^ 32 }
    ensures copy { IfOk result (λ c. probed.place_of c
        ≡ put_place (map_of walk.now.map.now) walk.now.first next.old (plain.place_of tree.now)) }
    ensures next { IfOk result (λ _. next.new
        ≡ next.old + roots role.Plain (nodes.place (plain.place_of tree.now))) }
{
    match tree {
        Place::Local { slot, span } => Ok(Place::Local {
            slot: *slot,
            span: *span,
        }),
        Place::Static { slot, span } => Ok(Place::Static {
            slot: *slot,
            span: *span,
        }),
        Place::Parameter {
            array,
            stride,
            index,
            span,
        } => {
            let index = boxed(walk, next, index)?;
            Ok(Place::Parameter {
                array: *array,
                stride: *stride,
                index,
                span: *span,
            })
        }
        Place::Item {
            array,
            length,
            stride,
            index,
            span,
        } => {
            let array = boxed_place(walk, next, array)?;
            let index = boxed(walk, next, index)?;
            Ok(Place::Item {
                array,
                length: *length,
                stride: *stride,
                index,
                span: *span,
            })
        }
        Place::Member {
            structure: whole,
            member,
            offset,
            span,
        } => {
            let structure = boxed_place(walk, next, whole)?;
            Ok(Place::Member {
                structure,
                member: *member,
                offset: *offset,
                span: *span,
            })
        }
    }
}

/// A copy of a place, on the heap.
#[cycle(put)]
#[inline(never)]
fn boxed_place(walk: &Walk<'_>, next: &mut u32, tree: &Place) -> Result<Box<Place>, AllocError>
    requires { next.now + roots role.Plain (nodes.place (plain.place_of tree.now)) < 2 ^ 32 }
    ensures copy { IfOk result (λ c. probed.place_of c.value
        ≡ put_place (map_of walk.now.map.now) walk.now.first next.old (plain.place_of tree.now)) }
    ensures next { IfOk result (λ _. next.new
        ≡ next.old + roots role.Plain (nodes.place (plain.place_of tree.now))) }
{
    let copy = place(walk, next, tree)?;
    let copy = Box::new(walk.alloc, copy)?;
    Ok(copy)
}

/// A copy of a structure.
#[cycle(put)]
pub(crate) fn structure(
    walk: &Walk<'_>,
    next: &mut u32,
    tree: &Structure,
) -> Result<Structure, AllocError>
    requires { next.now
        + roots role.Plain (nodes.structure (plain.structure_of tree.now)) < 2 ^ 32 }
    ensures copy { IfOk result (λ c. probed.structure_of c
        ≡ put_structure (map_of walk.now.map.now) walk.now.first next.old
        (plain.structure_of tree.now)) }
    ensures next { IfOk result (λ _. next.new
        ≡ next.old + roots role.Plain (nodes.structure (plain.structure_of tree.now))) }
{
    match tree {
        Structure::Stored { place: object } => {
            let place = place(walk, next, object)?;
            Ok(Structure::Stored { place })
        }
        Structure::Returned { call: made } => {
            let call = call(walk, next, made)?;
            Ok(Structure::Returned { call })
        }
    }
}

/// A copy of a call.
#[cycle(put)]
pub(crate) fn call(
    walk: &Walk<'_>,
    next: &mut u32,
    tree: &FunctionCall,
) -> Result<FunctionCall, AllocError>
    requires { next.now + roots_in (nodes.call_parts (plain.call_of tree.now)) < 2 ^ 32 }
    ensures copy { IfOk result (λ c. probed.call_of c
        ≡ put_call (map_of walk.now.map.now) walk.now.first next.old (plain.call_of tree.now)) }
    ensures next { IfOk result (λ _. next.new
        ≡ next.old + roots_in (nodes.call_parts (plain.call_of tree.now))) }
{
    let arguments = arguments(walk, next, &tree.arguments)?;
    Ok(FunctionCall {
        function: tree.function,
        arguments,
        result: tree.result,
        span: tree.span,
    })
}

#[cycle(put)]
fn argument(walk: &Walk<'_>, next: &mut u32, tree: &Argument) -> Result<Argument, AllocError>
    requires { next.now + roots role.Plain (nodes.argument (plain.argument_of tree.now)) < 2 ^ 32 }
    ensures copy { IfOk result (λ c. probed.argument_of c
        ≡ put_argument (map_of walk.now.map.now) walk.now.first next.old
        (plain.argument_of tree.now)) }
    ensures next { IfOk result (λ _. next.new
        ≡ next.old + roots role.Plain (nodes.argument (plain.argument_of tree.now))) }
{
    match tree {
        Argument::Number { value } => {
            let value = expression(walk, next, value)?;
            Ok(Argument::Number { value })
        }
        Argument::Structure { value, copy } => {
            let value = structure(walk, next, value)?;
            Ok(Argument::Structure { value, copy: *copy })
        }
        Argument::Array {
            place: object,
            length,
        } => {
            let place = place(walk, next, object)?;
            Ok(Argument::Array {
                place,
                length: *length,
            })
        }
        Argument::Again { array, span } => Ok(Argument::Again {
            array: *array,
            span: *span,
        }),
    }
}

#[cycle(put)]
fn arguments(
    walk: &Walk<'_>,
    next: &mut u32,
    trees: &[Argument],
) -> Result<Vec<Argument>, AllocError>
    requires { next.now
        + roots_in (nodes.arguments (plain.arguments_from (map plain.argument_of trees.now)))
        < 2 ^ 32 }
    ensures copy { IfOk result (λ c. probed.arguments_from (map probed.argument_of c.items)
        ≡ put_arguments (map_of walk.now.map.now) walk.now.first next.old
        (plain.arguments_from (map plain.argument_of trees.now))) }
    ensures next { IfOk result (λ _. next.new
        ≡ next.old
        + roots_in (nodes.arguments (plain.arguments_from (map plain.argument_of trees.now)))) }
{
    let mut copies = Vec::with_capacity(walk.alloc, trees.len())?;
    for tree in trees {
        let copy = argument(walk, next, tree)?;
        copies.push(copy)?;
    }
    Ok(copies)
}
