//! Statements of mutants.
ghost use Rattle.std.specs.Prelude.{◌≡◌, map, option_map, IfOk};
ghost use Rattle.mc_typed.specs.Tree as typed;
ghost use Rattle.mc_typed.specs.Views.{declarator_of, effect_of, expression_of, return_value_of, start_of, statement_of, statements_from};
ghost use Rattle.mc_probe.specs.Views as probed;
ghost use Rattle.mc_probe.specs.Bare.{bare_expression, bare_return, bare_start, bare_statement, bare_statements};
ghost use Rattle.decide_rules.specs.Nodes as nodes;
ghost use Rattle.mc_mutate.specs.steps.Search.{inside_parts, searched};
ghost use Rattle.mc_mutate.specs.steps.Changed as changed;

use crate::copies::effects::{effect, effects};
use crate::copies::expressions::{expression, structure};
use crate::copies::initializers::declarators;
use crate::search::Sought;
use decide_rules::Role;
use mc_typed::{Declarator, Effect, Expression, ForStart, ReturnValue, Span, Statement};
use std::alloc::{AllocError, Global};

fn start(alloc: Global, sought: &mut Sought, tree: &ForStart) -> Result<ForStart, AllocError>
    ensures tree { IfOk result (λ c. probed.start_of c
        ≡ bare_start (changed.start_changed (start_of tree.now) sought.old)) }
    ensures sought { IfOk result (λ _.
        sought.new ≡ searched Role.Plain (nodes.start (start_of tree.now)) sought.old) }
{
    match tree {
        ForStart::Effects { effects: clauses } => {
            let effects = effects(alloc, sought, clauses)?;
            Ok(ForStart::Effects { effects })
        }
        ForStart::Declaration {
            declarators: declared,
        } => {
            let declarators = declarators(alloc, sought, declared)?;
            Ok(ForStart::Declaration { declarators })
        }
    }
}

fn optional(
    alloc: Global,
    sought: &mut Sought,
    tree: &Option<Expression>,
) -> Result<Option<Expression>, AllocError>
    ensures tree { IfOk result (λ c. option_map probed.expression_of c
        ≡ option_map bare_expression
        (changed.optional_changed (option_map expression_of tree.now) sought.old)) }
    ensures sought { IfOk result (λ _. sought.new
        ≡ searched Role.Plain (nodes.optional_test (option_map expression_of tree.now))
        sought.old) }
{
    match tree {
        Some(test) => {
            let test = expression(alloc, sought, Role::Controlling, test)?;
            Ok(Some(test))
        }
        None => Ok(None),
    }
}

fn return_value(
    alloc: Global,
    sought: &mut Sought,
    tree: &ReturnValue,
) -> Result<ReturnValue, AllocError>
    ensures tree { IfOk result (λ c. probed.return_value_of c
        ≡ bare_return (changed.return_changed (return_value_of tree.now) sought.old)) }
    ensures sought { IfOk result (λ _.
        sought.new ≡ searched Role.Plain (nodes.return_value (return_value_of tree.now))
        sought.old) }
{
    match tree {
        ReturnValue::Nothing => Ok(ReturnValue::Nothing),
        ReturnValue::Number { value } => {
            let value = expression(alloc, sought, Role::Plain, value)?;
            Ok(ReturnValue::Number { value })
        }
        ReturnValue::Structure { value, cells } => {
            let value = structure(alloc, sought, value)?;
            Ok(ReturnValue::Structure {
                value,
                cells: *cells,
            })
        }
    }
}

/// A declaration with the change that is sought.
fn declaration(
    alloc: Global,
    sought: &mut Sought,
    trees: &[Declarator],
    span: Span,
) -> Result<Statement, AllocError>
    ensures tree { IfOk result (λ c. probed.statement_of c
        ≡ bare_statement (changed.statement_changed
        (typed.Declaration (map declarator_of trees.now) span)
        sought.old)) }
    ensures sought { IfOk result (λ _. sought.new
        ≡ searched Role.Plain (nodes.statement
        (typed.Declaration (map declarator_of trees.now) span))
        sought.old) }
{
    let declarators = declarators(alloc, sought, trees)?;
    Ok(Statement::Declaration {
        declarators,
        span,
        bit: None,
    })
}

/// An effect as a statement, with the change that is sought.
fn performed(
    alloc: Global,
    sought: &mut Sought,
    tree: &Effect,
    span: Span,
) -> Result<Statement, AllocError>
    ensures tree { IfOk result (λ c. probed.statement_of c
        ≡ bare_statement (changed.statement_changed
        (typed.EffectStatement (effect_of tree.now) span)
        sought.old)) }
    ensures sought { IfOk result (λ _. sought.new
        ≡ searched Role.Plain (nodes.statement
        (typed.EffectStatement (effect_of tree.now) span))
        sought.old) }
{
    let effect = effect(alloc, sought, tree)?;
    Ok(Statement::Effect {
        effect,
        span,
        bit: None,
    })
}

/// A `return` with the change that is sought.
fn returned(
    alloc: Global,
    sought: &mut Sought,
    tree: &ReturnValue,
    span: Span,
) -> Result<Statement, AllocError>
    ensures tree { IfOk result (λ c. probed.statement_of c
        ≡ bare_statement (changed.statement_changed
        (typed.Return (return_value_of tree.now) span)
        sought.old)) }
    ensures sought { IfOk result (λ _. sought.new
        ≡ searched Role.Plain (nodes.statement
        (typed.Return (return_value_of tree.now) span))
        sought.old) }
{
    let value = return_value(alloc, sought, tree)?;
    Ok(Statement::Return {
        value,
        span,
        bit: None,
        exit: None,
    })
}

/// A statement with the change that is sought. A function clears all its values as it begins, so
/// most kinds of statements have a function of their own.
#[cycle(change)]
fn statement(alloc: Global, sought: &mut Sought, tree: &Statement) -> Result<Statement, AllocError>
    ensures tree { IfOk result (λ c. probed.statement_of c
        ≡ bare_statement (changed.statement_changed (statement_of tree.now) sought.old)) }
    ensures sought { IfOk result (λ _.
        sought.new ≡ searched Role.Plain (nodes.statement (statement_of tree.now)) sought.old) }
{
    match tree {
        Statement::Compound { items, span } => compound(alloc, sought, items, *span),
        Statement::Label { value, span, .. } => Ok(Statement::Label {
            value: *value,
            span: *span,
            mark: None,
        }),
        Statement::Declaration {
            declarators: declared,
            span,
            ..
        } => declaration(alloc, sought, declared, *span),
        Statement::Null { span, .. } => Ok(Statement::Null {
            span: *span,
            bit: None,
        }),
        Statement::Effect {
            effect: whole,
            span,
            ..
        } => performed(alloc, sought, whole, *span),
        Statement::If {
            test,
            chosen,
            keyword,
            span,
            ..
        } => if_alone(alloc, sought, chosen, test, *keyword, *span),
        Statement::IfElse {
            test,
            chosen,
            other,
            keyword,
            span,
            ..
        } => {
            let test = expression(alloc, sought, Role::Controlling, test)?;
            let chosen = boxed(alloc, sought, chosen)?;
            let other = boxed(alloc, sought, other)?;
            Ok(Statement::IfElse {
                test,
                chosen,
                other,
                keyword: *keyword,
                span: *span,
                bit: None,
            })
        }
        Statement::Switch {
            value,
            items,
            keyword,
            span,
            ..
        } => switch(alloc, sought, items, value, *keyword, *span),
        Statement::For {
            start: first,
            test,
            step,
            body,
            keyword,
            span,
            ..
        } => for_loop(alloc, sought, body, first, test, step, *keyword, *span),
        Statement::DoWhile {
            body,
            test,
            keyword,
            span,
            ..
        } => do_while(alloc, sought, body, test, *keyword, *span),
        Statement::Break { span, .. } => Ok(Statement::Break {
            span: *span,
            bit: None,
        }),
        Statement::Continue { span, .. } => Ok(Statement::Continue {
            span: *span,
            bit: None,
        }),
        Statement::Return { value, span, .. } => returned(alloc, sought, value, *span),
    }
}

/// A statement with the change that is sought, on the heap.
#[cycle(change)]
fn boxed(alloc: Global, sought: &mut Sought, tree: &Statement) -> Result<Box<Statement>, AllocError>
    ensures tree { IfOk result (λ c. probed.statement_of c.value
        ≡ bare_statement (changed.statement_changed (statement_of tree.now) sought.old)) }
    ensures sought { IfOk result (λ _.
        sought.new ≡ searched Role.Plain (nodes.statement (statement_of tree.now)) sought.old) }
{
    let copy = statement(alloc, sought, tree)?;
    let copy = Box::new(alloc, copy)?;
    Ok(copy)
}

/// A block with the change that is sought.
#[cycle(change)]
fn compound(
    alloc: Global,
    sought: &mut Sought,
    trees: &[Statement],
    span: Span,
) -> Result<Statement, AllocError>
    ensures tree { IfOk result (λ c. probed.statement_of c
        ≡ bare_statement (changed.statement_changed
        (typed.Compound (statements_from (map statement_of trees.now)) span)
        sought.old)) }
    ensures sought { IfOk result (λ _. sought.new
        ≡ searched Role.Plain (nodes.statement
        (typed.Compound (statements_from (map statement_of trees.now)) span))
        sought.old) }
{
    let items = statements(alloc, sought, trees)?;
    Ok(Statement::Compound { items, span })
}

/// An `if` without `else`.
#[cycle(change)]
fn if_alone(
    alloc: Global,
    sought: &mut Sought,
    chosen: &Statement,
    test: &Expression,
    keyword: Span,
    span: Span,
) -> Result<Statement, AllocError>
    ensures tree { IfOk result (λ c. probed.statement_of c
        ≡ bare_statement (changed.statement_changed
        (typed.If (expression_of test.now) (statement_of chosen.now) keyword span)
        sought.old)) }
    ensures sought { IfOk result (λ _. sought.new
        ≡ searched Role.Plain (nodes.statement
        (typed.If (expression_of test.now) (statement_of chosen.now) keyword span))
        sought.old) }
{
    let test = expression(alloc, sought, Role::Controlling, test)?;
    let chosen = boxed(alloc, sought, chosen)?;
    Ok(Statement::If {
        test,
        chosen,
        keyword,
        span,
        bit: None,
    })
}

/// A `switch` with the change that is sought.
#[cycle(change)]
fn switch(
    alloc: Global,
    sought: &mut Sought,
    trees: &[Statement],
    value: &Expression,
    keyword: Span,
    span: Span,
) -> Result<Statement, AllocError>
    ensures tree { IfOk result (λ c. probed.statement_of c
        ≡ bare_statement (changed.statement_changed
        (typed.Switch (expression_of value.now)
        (statements_from (map statement_of trees.now)) keyword span)
        sought.old)) }
    ensures sought { IfOk result (λ _. sought.new
        ≡ searched Role.Plain (nodes.statement
        (typed.Switch (expression_of value.now)
        (statements_from (map statement_of trees.now)) keyword span))
        sought.old) }
{
    let value = expression(alloc, sought, Role::Plain, value)?;
    let items = statements(alloc, sought, trees)?;
    Ok(Statement::Switch {
        value,
        items,
        keyword,
        span,
        bit: None,
        absent: None,
    })
}

/// A `for` or a `while` with the change that is sought.
#[cycle(change)]
fn for_loop(
    alloc: Global,
    sought: &mut Sought,
    body: &Statement,
    first: &ForStart,
    test: &Option<Expression>,
    step: &[Effect],
    keyword: Span,
    span: Span,
) -> Result<Statement, AllocError>
    ensures tree { IfOk result (λ c. probed.statement_of c
        ≡ bare_statement (changed.statement_changed
        (typed.For (start_of first.now) (option_map expression_of test.now)
        (map effect_of step.now) (statement_of body.now) keyword span)
        sought.old)) }
    ensures sought { IfOk result (λ _. sought.new
        ≡ searched Role.Plain (nodes.statement
        (typed.For (start_of first.now) (option_map expression_of test.now)
        (map effect_of step.now) (statement_of body.now) keyword span))
        sought.old) }
{
    let start = start(alloc, sought, first)?;
    let test = optional(alloc, sought, test)?;
    let step = effects(alloc, sought, step)?;
    let body = boxed(alloc, sought, body)?;
    Ok(Statement::For {
        start,
        test,
        step,
        body,
        keyword,
        span,
        bit: None,
    })
}

/// A `do` with the change that is sought.
#[cycle(change)]
fn do_while(
    alloc: Global,
    sought: &mut Sought,
    body: &Statement,
    test: &Expression,
    keyword: Span,
    span: Span,
) -> Result<Statement, AllocError>
    ensures tree { IfOk result (λ c. probed.statement_of c
        ≡ bare_statement (changed.statement_changed
        (typed.DoWhile (statement_of body.now) (expression_of test.now) keyword span)
        sought.old)) }
    ensures sought { IfOk result (λ _. sought.new
        ≡ searched Role.Plain (nodes.statement
        (typed.DoWhile (statement_of body.now) (expression_of test.now) keyword span))
        sought.old) }
{
    let body = boxed(alloc, sought, body)?;
    let test = expression(alloc, sought, Role::Controlling, test)?;
    Ok(Statement::DoWhile {
        body,
        test,
        keyword,
        span,
        bit: None,
    })
}

/// The items of a body with the change that is sought.
#[cycle(change)]
pub(super) fn statements(
    alloc: Global,
    sought: &mut Sought,
    trees: &[Statement],
) -> Result<Vec<Statement>, AllocError>
    ensures tree { IfOk result (λ c. probed.statements_from (map probed.statement_of c.items)
        ≡ bare_statements (changed.statements_changed
        (statements_from (map statement_of trees.now)) sought.old)) }
    ensures sought { IfOk result (λ _. sought.new
        ≡ inside_parts (nodes.statements (statements_from (map statement_of trees.now)))
        sought.old) }
{
    let mut copies = Vec::with_capacity(alloc, trees.len())?;
    for tree in trees {
        let copy = statement(alloc, sought, tree)?;
        copies.push(copy)?;
    }
    Ok(copies)
}
