//! The places of events in the text.
ghost use Rattle.std.specs.Prelude.{◌≡◌, ◌++◌, ◌∷◌, [], map, if◌then◌else◌, IfOk};
ghost use Rattle.mc_typed.specs.Views.{declarator_of, function_of, program_of, statement_of, statements_from};
ghost use Rattle.mc_probe.specs.Obligations.{counted_spans, counted_spans_all, entry_spans, exits, exit_spans, labels, labels_all, label_spans, returns, returns_all, statement_spans};

use crate::completes::{all_complete, has_default, initializes};
use mc_typed::{Function, Program, Span, Statement};
use std::alloc::{AllocError, Global};

/// Where the entries, the exits, the counted statements and the labels of a program stand, in the
/// order of the text.
#[derive(Drop)]
pub(crate) struct Places {
    pub entries: Vec<Span>,
    pub exits: Vec<Span>,
    pub statements: Vec<Span>,
    pub labels: Vec<Span>,
}

/// The places of a program.
pub(crate) fn list_places(alloc: Global, program: &Program<'_>) -> Result<Places, AllocError>
    ensures entries { IfOk result (λ p. p.entries.items ≡ entry_spans (program_of program.now)) }
    ensures exits { IfOk result (λ p. p.exits.items ≡ exit_spans (program_of program.now)) }
    ensures statements { IfOk result (λ p.
        p.statements.items ≡ statement_spans (program_of program.now)) }
    ensures labels { IfOk result (λ p. p.labels.items ≡ label_spans (program_of program.now)) }
{
    let mut places = Places {
        entries: Vec::new(alloc),
        exits: Vec::new(alloc),
        statements: Vec::new(alloc),
        labels: Vec::new(alloc),
    };
    for tree in program.functions() {
        add_function(&mut places, tree)?;
    }
    Ok(places)
}

fn add(list: &mut Vec<Span>, span: Span) -> Result<(), AllocError>
    ensures { IfOk result (λ _. list.new.items ≡ list.old.items ++ span ∷ []) }
{
    list.push(span)?;
    Ok(())
}

fn add_where(list: &mut Vec<Span>, holds: bool, span: Span) -> Result<(), AllocError>
    ensures { IfOk result (λ _. list.new.items
        ≡ list.old.items ++ (if holds then span ∷ [] else [])) }
{
    if holds {
        list.push(span)?;
    }
    Ok(())
}

fn add_unless(list: &mut Vec<Span>, holds: bool, span: Span) -> Result<(), AllocError>
    ensures { IfOk result (λ _. list.new.items
        ≡ list.old.items ++ (if holds then [] else span ∷ [])) }
{
    if !holds {
        list.push(span)?;
    }
    Ok(())
}

/// Adds the places of a function.
fn add_function(places: &mut Places, tree: &Function<'_>) -> Result<(), AllocError>
    ensures entries { IfOk result (λ _. places.new.entries.items
        ≡ places.old.entries.items ++ (function_of tree.now).name_span ∷ []) }
    ensures exits { IfOk result (λ _. places.new.exits.items
        ≡ places.old.exits.items ++ exits (function_of tree.now)) }
    ensures statements { IfOk result (λ _. places.new.statements.items
        ≡ places.old.statements.items ++ counted_spans_all (function_of tree.now).body) }
    ensures labels { IfOk result (λ _. places.new.labels.items
        ≡ places.old.labels.items ++ labels_all (function_of tree.now).body) }
{
    add(&mut places.entries, tree.name_span)?;
    add_exits(&mut places.exits, &tree.body)?;
    add_where(&mut places.exits, all_complete(&tree.body), tree.closing)?;
    add_all_counted(&mut places.statements, &tree.body)?;
    add_all_labels(&mut places.labels, &tree.body)
}

/// Adds the `return` statements in a statement.
#[cycle(exits)]
fn add_returns(list: &mut Vec<Span>, tree: &Statement) -> Result<(), AllocError>
    ensures { IfOk result (λ _. list.new.items
        ≡ list.old.items ++ returns (statement_of tree.now)) }
{
    match tree {
        Statement::Compound { items, .. } | Statement::Switch { items, .. } => add_exits(
            list, items,
        ),
        Statement::If { chosen, .. } => add_returns(list, chosen),
        Statement::IfElse { chosen, other, .. } => {
            add_returns(list, chosen)?;
            add_returns(list, other)
        }
        Statement::For { body, .. } | Statement::DoWhile { body, .. } => add_returns(list, body),
        Statement::Return { span, .. } => add(list, *span),
        Statement::Label { .. }
        | Statement::Declaration { .. }
        | Statement::Null { .. }
        | Statement::Effect { .. }
        | Statement::Break { .. }
        | Statement::Continue { .. } => Ok(()),
    }
}

/// Adds the `return` statements in the items of a body.
#[cycle(exits)]
fn add_exits(list: &mut Vec<Span>, trees: &[Statement]) -> Result<(), AllocError>
    ensures { IfOk result (λ _. list.new.items
        ≡ list.old.items ++ returns_all (statements_from (map statement_of trees.now))) }
{
    for tree in trees {
        add_returns(list, tree)?;
    }
    Ok(())
}

/// Adds the counted statements in a statement.
#[cycle(counted)]
fn add_counted(list: &mut Vec<Span>, tree: &Statement) -> Result<(), AllocError>
    ensures { IfOk result (λ _. list.new.items
        ≡ list.old.items ++ counted_spans (statement_of tree.now)) }
{
    match tree {
        Statement::Compound { items, .. } => add_all_counted(list, items),
        Statement::Label { .. } => Ok(()),
        Statement::Declaration {
            declarators,
            span,
            ..
        } => add_where(list, initializes(declarators), *span),
        Statement::If {
            chosen,
            keyword,
            ..
        } => {
            add(list, *keyword)?;
            add_counted(list, chosen)
        }
        Statement::IfElse {
            chosen,
            other,
            keyword,
            ..
        } => {
            add(list, *keyword)?;
            add_counted(list, chosen)?;
            add_counted(list, other)
        }
        Statement::Switch { items, keyword, .. } => {
            add(list, *keyword)?;
            add_all_counted(list, items)
        }
        Statement::For { body, keyword, .. } | Statement::DoWhile { body, keyword, .. } => {
            add(list, *keyword)?;
            add_counted(list, body)
        }
        Statement::Null { span, .. }
        | Statement::Effect { span, .. }
        | Statement::Break { span, .. }
        | Statement::Continue { span, .. }
        | Statement::Return { span, .. } => add(list, *span),
    }
}

/// Adds the counted statements in the items of a body.
#[cycle(counted)]
fn add_all_counted(list: &mut Vec<Span>, trees: &[Statement]) -> Result<(), AllocError>
    ensures { IfOk result (λ _. list.new.items
        ≡ list.old.items ++ counted_spans_all (statements_from (map statement_of trees.now))) }
{
    for tree in trees {
        add_counted(list, tree)?;
    }
    Ok(())
}

/// Adds the labels in a statement.
#[cycle(labels)]
fn add_labels(list: &mut Vec<Span>, tree: &Statement) -> Result<(), AllocError>
    ensures { IfOk result (λ _. list.new.items
        ≡ list.old.items ++ labels (statement_of tree.now)) }
{
    match tree {
        Statement::Compound { items, .. } => add_all_labels(list, items),
        Statement::Label { span, .. } => add(list, *span),
        Statement::If { chosen, .. } => add_labels(list, chosen),
        Statement::IfElse { chosen, other, .. } => {
            add_labels(list, chosen)?;
            add_labels(list, other)
        }
        Statement::Switch { items, keyword, .. } => {
            add_unless(list, has_default(items), *keyword)?;
            add_all_labels(list, items)
        }
        Statement::For { body, .. } | Statement::DoWhile { body, .. } => add_labels(list, body),
        Statement::Declaration { .. }
        | Statement::Null { .. }
        | Statement::Effect { .. }
        | Statement::Break { .. }
        | Statement::Continue { .. }
        | Statement::Return { .. } => Ok(()),
    }
}

/// Adds the labels in the items of a body.
#[cycle(labels)]
fn add_all_labels(list: &mut Vec<Span>, trees: &[Statement]) -> Result<(), AllocError>
    ensures { IfOk result (λ _. list.new.items
        ≡ list.old.items ++ labels_all (statements_from (map statement_of trees.now))) }
{
    for tree in trees {
        add_labels(list, tree)?;
    }
    Ok(())
}
