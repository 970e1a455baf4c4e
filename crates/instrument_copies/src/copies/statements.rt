//! Statements without probes.
ghost use Rattle.std.specs.Prelude.{◌≡◌, map, option_map, IfOk};
ghost use Rattle.mc_typed.specs.Views as plain;
ghost use Rattle.mc_probe.specs.Views as probed;
ghost use Rattle.mc_probe.specs.Bare.{bare_expression, bare_return, bare_start, bare_statement, bare_statements};

use crate::copies::effects::{effect, effects};
use crate::copies::expressions::{expression, structure};
use crate::copies::initializers::declarators;
use mc_typed::{Expression, ForStart, ReturnValue, Statement};
use std::alloc::{AllocError, Global};

fn start(alloc: Global, tree: &ForStart) -> Result<ForStart, AllocError>
    ensures { IfOk result (λ c. probed.start_of c ≡ bare_start (plain.start_of tree.now)) }
{
    match tree {
        ForStart::Effects { effects: clauses } => {
            let effects = effects(alloc, clauses)?;
            Ok(ForStart::Effects { effects })
        }
        ForStart::Declaration {
            declarators: declared,
        } => {
            let declarators = declarators(alloc, declared)?;
            Ok(ForStart::Declaration { declarators })
        }
    }
}

fn optional(alloc: Global, tree: &Option<Expression>) -> Result<Option<Expression>, AllocError>
    ensures { IfOk result (λ c. option_map probed.expression_of c
        ≡ option_map bare_expression (option_map plain.expression_of tree.now)) }
{
    match tree {
        Some(test) => {
            let test = expression(alloc, test)?;
            Ok(Some(test))
        }
        None => Ok(None),
    }
}

fn return_value(alloc: Global, tree: &ReturnValue) -> Result<ReturnValue, AllocError>
    ensures { IfOk result (λ c.
        probed.return_value_of c ≡ bare_return (plain.return_value_of tree.now)) }
{
    match tree {
        ReturnValue::Nothing => Ok(ReturnValue::Nothing),
        ReturnValue::Number { value } => {
            let value = expression(alloc, value)?;
            Ok(ReturnValue::Number { value })
        }
        ReturnValue::Structure { value, cells } => {
            let value = structure(alloc, value)?;
            Ok(ReturnValue::Structure {
                value,
                cells: *cells,
            })
        }
    }
}

/// A copy of a statement.
#[cycle(copy)]
fn statement(alloc: Global, tree: &Statement) -> Result<Statement, AllocError>
    ensures { IfOk result (λ c.
        probed.statement_of c ≡ bare_statement (plain.statement_of tree.now)) }
{
    match tree {
        Statement::Compound { items, span } => {
            let items = statements(alloc, items)?;
            Ok(Statement::Compound { items, span: *span })
        }
        Statement::Label { value, span, .. } => Ok(Statement::Label {
            value: *value,
            span: *span,
            mark: None,
        }),
        Statement::Declaration {
            declarators: declared,
            span,
            ..
        } => {
            let declarators = declarators(alloc, declared)?;
            Ok(Statement::Declaration {
                declarators,
                span: *span,
                bit: None,
            })
        }
        Statement::Null { span, .. } => Ok(Statement::Null {
            span: *span,
            bit: None,
        }),
        Statement::Effect {
            effect: whole,
            span,
            ..
        } => {
            let effect = effect(alloc, whole)?;
            Ok(Statement::Effect {
                effect,
                span: *span,
                bit: None,
            })
        }
        Statement::If {
            test,
            chosen,
            keyword,
            span,
            ..
        } => {
            let test = expression(alloc, test)?;
            let chosen = boxed(alloc, chosen)?;
            Ok(Statement::If {
                test,
                chosen,
                keyword: *keyword,
                span: *span,
                bit: None,
            })
        }
        Statement::IfElse {
            test,
            chosen,
            other,
            keyword,
            span,
            ..
        } => {
            let test = expression(alloc, test)?;
            let chosen = boxed(alloc, chosen)?;
            let other = boxed(alloc, other)?;
            Ok(Statement::IfElse {
                test,
                chosen,
                other,
                keyword: *keyword,
                span: *span,
                bit: None,
            })
        }
        Statement::Switch {
            value,
            items,
            keyword,
            span,
            ..
        } => {
            let value = expression(alloc, value)?;
            let items = statements(alloc, items)?;
            Ok(Statement::Switch {
                value,
                items,
                keyword: *keyword,
                span: *span,
                bit: None,
                absent: None,
            })
        }
        Statement::For {
            start: first,
            test,
            step,
            body,
            keyword,
            span,
            ..
        } => {
            let start = start(alloc, first)?;
            let test = optional(alloc, test)?;
            let step = effects(alloc, step)?;
            let body = boxed(alloc, body)?;
            Ok(Statement::For {
                start,
                test,
                step,
                body,
                keyword: *keyword,
                span: *span,
                bit: None,
            })
        }
        Statement::DoWhile {
            body,
            test,
            keyword,
            span,
            ..
        } => {
            let body = boxed(alloc, body)?;
            let test = expression(alloc, test)?;
            Ok(Statement::DoWhile {
                body,
                test,
                keyword: *keyword,
                span: *span,
                bit: None,
            })
        }
        Statement::Break { span, .. } => Ok(Statement::Break {
            span: *span,
            bit: None,
        }),
        Statement::Continue { span, .. } => Ok(Statement::Continue {
            span: *span,
            bit: None,
        }),
        Statement::Return { value, span, .. } => {
            let value = return_value(alloc, value)?;
            Ok(Statement::Return {
                value,
                span: *span,
                bit: None,
                exit: None,
            })
        }
    }
}

/// The same on the heap. What is boxed passes through this function alone: a function clears all
/// its values as it begins, and that would be much of the time that a copy takes.
#[cycle(copy)]
#[inline(never)]
fn boxed(alloc: Global, tree: &Statement) -> Result<Box<Statement>, AllocError>
    ensures { IfOk result (λ c.
        probed.statement_of c.value ≡ bare_statement (plain.statement_of tree.now)) }
{
    let copy = statement(alloc, tree)?;
    let copy = Box::new(alloc, copy)?;
    Ok(copy)
}

/// Copies of the items of a body.
#[cycle(copy)]
pub(super) fn statements(alloc: Global, trees: &[Statement]) -> Result<Vec<Statement>, AllocError>
    ensures { IfOk result (λ c. probed.statements_from (map probed.statement_of c.items)
        ≡ bare_statements (plain.statements_from (map plain.statement_of trees.now))) }
{
    let mut copies = Vec::with_capacity(alloc, trees.len())?;
    for tree in trees {
        let copy = statement(alloc, tree)?;
        copies.push(copy)?;
    }
    Ok(copies)
}
