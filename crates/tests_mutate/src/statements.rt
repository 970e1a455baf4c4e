//! Typed statements as C text, without blanks between them.
use crate::expressions::{
    show_call, show_expression, show_place, show_slot, show_structure, symbol,
};
use mc_typed::{
    Declarator, Effect, Expression, ForStart, Initializer, Program, ReturnValue, Statement,
};
use std::alloc::AllocError;

#[cycle(effects)]
fn show_effect(shown: &mut String, tree: &Effect) -> Result<(), AllocError> {
    match tree {
        Effect::Assign { target, value, .. } => {
            show_place(shown, target)?;
            show_between(shown, "=", value, "")
        }
        Effect::Update {
            target,
            operator,
            value,
            ..
        } => {
            show_place(shown, target)?;
            shown.push_str(symbol(*operator))?;
            show_between(shown, "=", value, "")
        }
        Effect::Copy { target, value, .. } => {
            show_place(shown, target)?;
            shown.push_str("=")?;
            show_structure(shown, value)
        }
        Effect::Number { value, .. } => show_expression(shown, value),
        Effect::Structure { value, .. } => show_structure(shown, value),
        Effect::Call { call } => show_call(shown, call),
        Effect::Output { value, .. } => show_between(shown, "mcdc_out(", value, ")"),
        Effect::Choice {
            test,
            chosen,
            other,
            ..
        } => {
            show_between(shown, "(", test, "?")?;
            show_effect(shown, chosen)?;
            shown.push_str(":")?;
            show_effect(shown, other)?;
            shown.push_str(")")
        }
        Effect::Discard { operand, .. } => {
            shown.push_str("(void)")?;
            show_effect(shown, operand)
        }
    }
}

fn show_between(
    shown: &mut String,
    before: &str,
    tree: &Expression,
    after: &str,
) -> Result<(), AllocError> {
    shown.push_str(before)?;
    show_expression(shown, tree)?;
    shown.push_str(after)
}

/// Effects, a comma after each.
fn show_effects(shown: &mut String, trees: &[Effect]) -> Result<(), AllocError> {
    for tree in trees {
        show_effect(shown, tree)?;
        shown.push_str(",")?;
    }
    Ok(())
}

#[cycle(initializers)]
fn show_initializer(shown: &mut String, tree: &Initializer) -> Result<(), AllocError> {
    match tree {
        Initializer::Number { value } => show_expression(shown, value),
        Initializer::Structure { value, .. } => show_structure(shown, value),
        Initializer::List { items, .. } => {
            shown.push_str("{")?;
            show_initializers(shown, items)?;
            shown.push_str("}")
        }
        Initializer::Zero { value, .. } => show_between(shown, "{", value, "}"),
    }
}

#[cycle(initializers)]
fn show_initializers(shown: &mut String, trees: &[Initializer]) -> Result<(), AllocError> {
    for tree in trees {
        show_initializer(shown, tree)?;
        shown.push_str(",")?;
    }
    Ok(())
}

fn show_initial(shown: &mut String, tree: &Option<Initializer>) -> Result<(), AllocError> {
    match tree {
        Some(value) => {
            shown.push_str("=")?;
            show_initializer(shown, value)
        }
        None => Ok(()),
    }
}

/// Declarators, a comma after each.
fn show_declarators(shown: &mut String, trees: &[Declarator]) -> Result<(), AllocError> {
    for tree in trees {
        show_slot(shown, tree.slot)?;
        show_initial(shown, &tree.value)?;
        shown.push_str(",")?;
    }
    Ok(())
}

fn show_start(shown: &mut String, tree: &ForStart) -> Result<(), AllocError> {
    match tree {
        ForStart::Effects { effects } => show_effects(shown, effects),
        ForStart::Declaration { declarators } => show_declarators(shown, declarators),
    }
}

fn show_optional(shown: &mut String, tree: &Option<Expression>) -> Result<(), AllocError> {
    match tree {
        Some(test) => show_expression(shown, test),
        None => Ok(()),
    }
}

fn show_head(
    shown: &mut String,
    start: &ForStart,
    test: &Option<Expression>,
    step: &[Effect],
) -> Result<(), AllocError> {
    shown.push_str("for(")?;
    show_start(shown, start)?;
    shown.push_str(";")?;
    show_optional(shown, test)?;
    shown.push_str(";")?;
    show_effects(shown, step)?;
    shown.push_str(")")
}

fn show_label(shown: &mut String, value: Option<i128>) -> Result<(), AllocError> {
    match value {
        Some(number) => write!(shown, "case {number}:"),
        None => shown.push_str("default:"),
    }
}

fn show_return(shown: &mut String, tree: &ReturnValue) -> Result<(), AllocError> {
    match tree {
        ReturnValue::Nothing => shown.push_str("return;"),
        ReturnValue::Number { value } => show_between(shown, "return ", value, ";"),
        ReturnValue::Structure { value, .. } => {
            shown.push_str("return ")?;
            show_structure(shown, value)?;
            shown.push_str(";")
        }
    }
}

#[cycle(statements)]
fn show_statement(shown: &mut String, tree: &Statement) -> Result<(), AllocError> {
    match tree {
        Statement::Compound { items, .. } => show_block(shown, items),
        Statement::Label { value, .. } => show_label(shown, *value),
        Statement::Declaration { declarators, .. } => {
            show_declarators(shown, declarators)?;
            shown.push_str(";")
        }
        Statement::Null { .. } => shown.push_str(";"),
        Statement::Effect { effect, .. } => {
            show_effect(shown, effect)?;
            shown.push_str(";")
        }
        Statement::If { test, chosen, .. } => {
            show_between(shown, "if(", test, ")")?;
            show_statement(shown, chosen)
        }
        Statement::IfElse {
            test,
            chosen,
            other,
            ..
        } => {
            show_between(shown, "if(", test, ")")?;
            show_statement(shown, chosen)?;
            shown.push_str("else ")?;
            show_statement(shown, other)
        }
        Statement::Switch { value, items, .. } => {
            show_between(shown, "switch(", value, ")")?;
            show_block(shown, items)
        }
        Statement::For {
            start,
            test,
            step,
            body,
            ..
        } => {
            show_head(shown, start, test, step)?;
            show_statement(shown, body)
        }
        Statement::DoWhile { body, test, .. } => {
            shown.push_str("do ")?;
            show_statement(shown, body)?;
            show_between(shown, "while(", test, ");")
        }
        Statement::Break { .. } => shown.push_str("break;"),
        Statement::Continue { .. } => shown.push_str("continue;"),
        Statement::Return { value, .. } => show_return(shown, value),
    }
}

#[cycle(statements)]
fn show_block(shown: &mut String, trees: &[Statement]) -> Result<(), AllocError> {
    shown.push_str("{")?;
    show_statements(shown, trees)?;
    shown.push_str("}")
}

#[cycle(statements)]
fn show_statements(shown: &mut String, trees: &[Statement]) -> Result<(), AllocError> {
    for tree in trees {
        show_statement(shown, tree)?;
    }
    Ok(())
}

/// The bodies of a program's functions.
pub fn show_program(shown: &mut String, program: &Program<'_>) -> Result<(), AllocError> {
    for function in program.functions() {
        show_block(shown, &function.body)?;
    }
    Ok(())
}
