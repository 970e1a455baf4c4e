//! Expressions of mutants.
ghost use Rattle.std.specs.Prelude.{◌≡◌, map, IfOk};
ghost use Rattle.mc_typed.specs.Views.{expression_of, place_of, structure_of, call_of, argument_of, arguments_from};
ghost use Rattle.mc_probe.specs.Views as probed;
ghost use Rattle.mc_probe.specs.Bare.{bare_argument, bare_arguments, bare_call, bare_expression, bare_place, bare_structure};
ghost use Rattle.decide_rules.specs.Nodes as nodes;
ghost use Rattle.mc_mutate.specs.Changes.{of_decision};
ghost use Rattle.mc_mutate.specs.steps.Search.{in_decision, inside, inside_parts, searched};
ghost use Rattle.mc_mutate.specs.steps.Changed as changed;

use crate::copies::decision::replaced;
use crate::search::{Sought, in_decision, is_root, under};
use decide_rules::{Role, full_operator};
use mc_typed::{Argument, Expression, FunctionCall, Place, Structure};
use std::alloc::{AllocError, Global};

/// An expression that stands so in what is around it, with the change that is sought.
#[cycle(change)]
pub(super) fn expression(
    alloc: Global,
    sought: &mut Sought,
    role: Role,
    tree: &Expression,
) -> Result<Expression, AllocError>
    ensures tree { IfOk result (λ c. probed.expression_of c
        ≡ bare_expression (changed.entered role (expression_of tree.now) sought.old
        (changed.inside_changed (expression_of tree.now)))) }
    ensures sought { IfOk result (λ _. sought.new
        ≡ searched role (nodes.expression (expression_of tree.now)) sought.old) }
{
    if is_root(role, tree) {
        root(alloc, sought, tree)
    } else {
        operands(alloc, sought, tree)
    }
}

/// The same on the heap. What is boxed passes through this function alone: a function clears all
/// its values as it begins, and that would be most of the time that `operands` takes.
#[cycle(change)]
fn boxed(
    alloc: Global,
    sought: &mut Sought,
    role: Role,
    tree: &Expression,
) -> Result<Box<Expression>, AllocError>
    ensures tree { IfOk result (λ c. probed.expression_of c.value
        ≡ bare_expression (changed.entered role (expression_of tree.now) sought.old
        (changed.inside_changed (expression_of tree.now)))) }
    ensures sought { IfOk result (λ _. sought.new
        ≡ searched role (nodes.expression (expression_of tree.now)) sought.old) }
{
    let copy = expression(alloc, sought, role, tree)?;
    let copy = Box::new(alloc, copy)?;
    Ok(copy)
}

/// The root of a decision: one of the decision's own mutants, or a change inside.
#[cycle(change)]
fn root(alloc: Global, sought: &mut Sought, tree: &Expression) -> Result<Expression, AllocError>
    ensures tree { IfOk result (λ c. probed.expression_of c
        ≡ bare_expression (changed.settled (of_decision (expression_of tree.now)) sought.old
        (changed.inside_changed (expression_of tree.now)))) }
    ensures sought { IfOk result (λ _. sought.new
        ≡ inside (nodes.expression (expression_of tree.now))
        (in_decision (nodes.expression (expression_of tree.now)) sought.old)) }
{
    match *sought {
        Sought::Found(_) => operands(alloc, sought, tree),
        Sought::Left(number) => root_left(alloc, number, sought, tree),
    }
}

/// The same where the change is still to be found, after this number of mutants.
#[cycle(change)]
fn root_left(
    alloc: Global,
    number: u32,
    sought: &mut Sought,
    tree: &Expression,
) -> Result<Expression, AllocError>
    requires { sought.old ≡ Sought.Left number }
    ensures tree { IfOk result (λ c. probed.expression_of c
        ≡ bare_expression (changed.settled (of_decision (expression_of tree.now)) sought.old
        (changed.inside_changed (expression_of tree.now)))) }
    ensures sought { IfOk result (λ _. sought.new
        ≡ inside (nodes.expression (expression_of tree.now))
        (in_decision (nodes.expression (expression_of tree.now)) sought.old)) }
{
    *sought = in_decision(*sought, tree);
    match *sought {
        Sought::Found(_) => replaced(alloc, number, tree),
        Sought::Left(_) => operands(alloc, sought, tree),
    }
}

/// An expression with the change that is sought in a decision inside.
#[cycle(change)]
fn operands(alloc: Global, sought: &mut Sought, tree: &Expression) -> Result<Expression, AllocError>
    ensures tree { IfOk result (λ c. probed.expression_of c
        ≡ bare_expression (changed.inside_changed (expression_of tree.now) sought.old)) }
    ensures sought { IfOk result (λ _. sought.new
        ≡ inside (nodes.expression (expression_of tree.now)) sought.old) }
{
    match tree {
        Expression::Constant { value, of, span } => Ok(Expression::Constant {
            value: *value,
            of: *of,
            span: *span,
        }),
        Expression::Input { span } => Ok(Expression::Input { span: *span }),
        Expression::Read { place: object, of } => {
            let place = place(alloc, sought, object)?;
            Ok(Expression::Read { place, of: *of })
        }
        Expression::Unary {
            operator,
            of,
            operand,
            span,
        } => {
            let operand = boxed(alloc, sought, Role::Plain, operand)?;
            Ok(Expression::Unary {
                operator: *operator,
                of: *of,
                operand,
                span: *span,
            })
        }
        Expression::Convert {
            to,
            written,
            operand,
            span,
        } => {
            let operand = boxed(alloc, sought, Role::Plain, operand)?;
            Ok(Expression::Convert {
                to: *to,
                written: *written,
                operand,
                span: *span,
            })
        }
        Expression::Not { operand, span } => {
            let operand = boxed(alloc, sought, Role::Inner, operand)?;
            Ok(Expression::Not {
                operand,
                span: *span,
            })
        }
        Expression::Binary {
            operator,
            of,
            left,
            right,
            span,
        } => {
            let role = under(full_operator(*operator, left, right));
            let left = boxed(alloc, sought, role, left)?;
            let right = boxed(alloc, sought, role, right)?;
            Ok(Expression::Binary {
                operator: *operator,
                of: *of,
                left,
                right,
                span: *span,
            })
        }
        Expression::Logic {
            operator,
            left,
            right,
            span,
        } => {
            let left = boxed(alloc, sought, Role::Inner, left)?;
            let right = boxed(alloc, sought, Role::Inner, right)?;
            Ok(Expression::Logic {
                operator: *operator,
                left,
                right,
                span: *span,
            })
        }
        Expression::Choice {
            test,
            chosen,
            other,
            of,
            span,
        } => {
            let test = boxed(alloc, sought, Role::Controlling, test)?;
            let chosen = boxed(alloc, sought, Role::Plain, chosen)?;
            let other = boxed(alloc, sought, Role::Plain, other)?;
            Ok(Expression::Choice {
                test,
                chosen,
                other,
                of: *of,
                span: *span,
            })
        }
        Expression::Call { call: made, of } => {
            let call = call(alloc, sought, made)?;
            Ok(Expression::Call { call, of: *of })
        }
        Expression::Probe { operand, .. } => operands(alloc, sought, operand),
    }
}

/// A place with the change that is sought.
#[cycle(change)]
pub(super) fn place(alloc: Global, sought: &mut Sought, tree: &Place) -> Result<Place, AllocError>
    ensures tree { IfOk result (λ c. probed.place_of c
        ≡ bare_place (changed.place_changed (place_of tree.now) sought.old)) }
    ensures sought { IfOk result (λ _.
        sought.new ≡ searched Role.Plain (nodes.place (place_of tree.now)) sought.old) }
{
    match tree {
        Place::Local { slot, span } => Ok(Place::Local {
            slot: *slot,
            span: *span,
        }),
        Place::Static { slot, span } => Ok(Place::Static {
            slot: *slot,
            span: *span,
        }),
        Place::Parameter {
            array,
            stride,
            index,
            span,
        } => {
            let index = boxed(alloc, sought, Role::Plain, index)?;
            Ok(Place::Parameter {
                array: *array,
                stride: *stride,
                index,
                span: *span,
            })
        }
        Place::Item {
            array,
            length,
            stride,
            index,
            span,
        } => {
            let array = Box::new(alloc, place(alloc, sought, array)?)?;
            let index = boxed(alloc, sought, Role::Plain, index)?;
            Ok(Place::Item {
                array,
                length: *length,
                stride: *stride,
                index,
                span: *span,
            })
        }
        Place::Member {
            structure: whole,
            member,
            offset,
            span,
        } => {
            let structure = Box::new(alloc, place(alloc, sought, whole)?)?;
            Ok(Place::Member {
                structure,
                member: *member,
                offset: *offset,
                span: *span,
            })
        }
    }
}

/// A structure with the change that is sought.
#[cycle(change)]
pub(super) fn structure(
    alloc: Global,
    sought: &mut Sought,
    tree: &Structure,
) -> Result<Structure, AllocError>
    ensures tree { IfOk result (λ c. probed.structure_of c
        ≡ bare_structure (changed.structure_changed (structure_of tree.now) sought.old)) }
    ensures sought { IfOk result (λ _.
        sought.new ≡ searched Role.Plain (nodes.structure (structure_of tree.now)) sought.old) }
{
    match tree {
        Structure::Stored { place: object } => {
            let place = place(alloc, sought, object)?;
            Ok(Structure::Stored { place })
        }
        Structure::Returned { call: made } => {
            let call = call(alloc, sought, made)?;
            Ok(Structure::Returned { call })
        }
    }
}

/// A call with the change that is sought.
#[cycle(change)]
pub(super) fn call(
    alloc: Global,
    sought: &mut Sought,
    tree: &FunctionCall,
) -> Result<FunctionCall, AllocError>
    ensures tree { IfOk result (λ c. probed.call_of c
        ≡ bare_call (changed.call_changed (call_of tree.now) sought.old)) }
    ensures sought { IfOk result (λ _.
        sought.new ≡ inside_parts (nodes.call_parts (call_of tree.now)) sought.old) }
{
    let arguments = arguments(alloc, sought, &tree.arguments)?;
    Ok(FunctionCall {
        function: tree.function,
        arguments,
        result: tree.result,
        span: tree.span,
    })
}

#[cycle(change)]
fn argument(alloc: Global, sought: &mut Sought, tree: &Argument) -> Result<Argument, AllocError>
    ensures tree { IfOk result (λ c. probed.argument_of c
        ≡ bare_argument (changed.argument_changed (argument_of tree.now) sought.old)) }
    ensures sought { IfOk result (λ _.
        sought.new ≡ searched Role.Plain (nodes.argument (argument_of tree.now)) sought.old) }
{
    match tree {
        Argument::Number { value } => {
            let value = expression(alloc, sought, Role::Plain, value)?;
            Ok(Argument::Number { value })
        }
        Argument::Structure { value, copy } => {
            let value = structure(alloc, sought, value)?;
            Ok(Argument::Structure { value, copy: *copy })
        }
        Argument::Array {
            place: object,
            length,
        } => {
            let place = place(alloc, sought, object)?;
            Ok(Argument::Array {
                place,
                length: *length,
            })
        }
        Argument::Again { array, span } => Ok(Argument::Again {
            array: *array,
            span: *span,
        }),
    }
}

#[cycle(change)]
fn arguments(
    alloc: Global,
    sought: &mut Sought,
    trees: &[Argument],
) -> Result<Vec<Argument>, AllocError>
    ensures tree { IfOk result (λ c. probed.arguments_from (map probed.argument_of c.items)
        ≡ bare_arguments (changed.arguments_changed
        (arguments_from (map argument_of trees.now)) sought.old)) }
    ensures sought { IfOk result (λ _. sought.new
        ≡ inside_parts (nodes.arguments (arguments_from (map argument_of trees.now))) sought.old) }
{
    let mut copies = Vec::with_capacity(alloc, trees.len())?;
    for tree in trees {
        let copy = argument(alloc, sought, tree)?;
        copies.push(copy)?;
    }
    Ok(copies)
}
