//! Selection statements (C17 6.8.4).
ghost use Rattle.std.specs.Prelude.{◌≡◌, Some, IfOk, option_map, option_and_then};
ghost use Rattle.mc_value.specs.Conversions.{promoted};
ghost use Rattle.mc_typed.specs.Sound.{type_of};
ghost use Rattle.mc_typed.specs.Tree as typed;
ghost use Rattle.mc_typed.specs.Views.{expression_of, statement_of};
ghost use Rattle.mc_tree.specs.Units as units;
ghost use Rattle.types_rules.specs.Scopes as scopes;
ghost use Rattle.types_rules.specs.Values as values;
ghost use Rattle.types_rules.specs.Values.{lift2, lift3};
ghost use Rattle.types_rules.specs.Expressions.{promote};
ghost use Rattle.types_rules.specs.Statements as statement_rules;
ghost use Rattle.types_scopes.specs.Types.{base_of};
ghost use Rattle.types_scopes.specs.Found.{found_of, judged_of, value_of};
ghost use Rattle.types_scopes.specs.Statements.{statements_of};
ghost use Rattle.types_scopes.specs.steps.Squeezed.{squeezed_part};
ghost use Rattle.types_statements.specs.Lists.{boxed_of};

use crate::statements::lists::{first_word, listed, only_boxed, only_in};
use mc_tree::Statement as Tree;
use mc_typed::{Expression, Span, Statement};
use mc_value::IntType;
use std::alloc::{AllocError, Global};
use types_faults::{FaultKind, three_or_fault, two_or_fault};
use types_scopes::found::{Found, Judged, fails_integer, number_in};
use types_scopes::lists::unused;
use types_scopes::value::Value;
use types_scopes::{Base, CType, conversions};

fn if_alone(
    alloc: Global,
    span: Span,
    test: Expression,
    chosen: Box<Statement>,
) -> Result<Option<Vec<Statement>>, AllocError>
    ensures { IfOk result (λ r. option_map statements_of r ≡ Some (statement_rules.alone
        (typed.If (expression_of test) (boxed_of chosen) (statement_rules.keyword 2 span) span))) }
{
    let keyword = first_word(2, span);
    listed(
        alloc,
        Statement::If {
            test,
            chosen,
            keyword,
            span,
            bit: None,
        },
    )
}

fn if_of(
    alloc: Global,
    span: Span,
    test: Option<Expression>,
    chosen: Option<Box<Statement>>,
) -> Result<Option<Vec<Statement>>, AllocError>
    ensures { IfOk result (λ r. option_map statements_of r
        ≡ lift2 (λ e one. statement_rules.alone
        (typed.If e one (statement_rules.keyword 2 span) span))
        (option_map expression_of test) (option_map boxed_of chosen)) }
{
    match test {
        Some(test) => match chosen {
            Some(chosen) => if_alone(alloc, span, test, chosen),
            None => {
                drop(test);
                Ok(None)
            }
        },
        None => {
            unused(chosen);
            Ok(None)
        }
    }
}

/// An `if` without `else`.
pub fn if_statement(
    alloc: Global,
    span: Span,
    test: Found,
    chosen: Judged<Vec<Statement>>,
) -> Result<Judged<Vec<Statement>>, AllocError>
    ensures { IfOk result (λ r. (s : scopes.Scope) → judged_of statements_of r s
        ≡ squeezed_part (statement_rules.if_judged span (found_of test s)
        (judged_of statements_of chosen s))) }
{
    let wrong = fails_integer(&test.value);
    let fault = two_or_fault(
        test.fault,
        chosen.fault,
        wrong,
        FaultKind::Mismatch,
        span.start,
    );
    let number = number_in(test.value);
    let Ok(chosen) = only_boxed(alloc, chosen.value) else {
        unused(number);
        return Err(AllocError);
    };
    match if_of(alloc, span, number, chosen) {
        Ok(value) => Ok(Judged { fault, value }),
        Err(error) => Err(error),
    }
}

fn if_else_alone(
    alloc: Global,
    span: Span,
    test: Expression,
    chosen: Box<Statement>,
    other: Box<Statement>,
) -> Result<Option<Vec<Statement>>, AllocError>
    ensures { IfOk result (λ r. option_map statements_of r ≡ Some (statement_rules.alone
        (typed.IfElse (expression_of test) (boxed_of chosen) (boxed_of other)
        (statement_rules.keyword 2 span) span))) }
{
    let keyword = first_word(2, span);
    listed(
        alloc,
        Statement::IfElse {
            test,
            chosen,
            other,
            keyword,
            span,
            bit: None,
        },
    )
}

fn if_else_of(
    alloc: Global,
    span: Span,
    test: Option<Expression>,
    chosen: Option<Box<Statement>>,
    other: Option<Box<Statement>>,
) -> Result<Option<Vec<Statement>>, AllocError>
    ensures { IfOk result (λ r. option_map statements_of r
        ≡ lift3 (λ e one other. statement_rules.alone
        (typed.IfElse e one other (statement_rules.keyword 2 span) span))
        (option_map expression_of test) (option_map boxed_of chosen)
        (option_map boxed_of other)) }
{
    match test {
        Some(test) => match chosen {
            Some(chosen) => match other {
                Some(other) => if_else_alone(alloc, span, test, chosen, other),
                None => {
                    drop(test);
                    drop(chosen);
                    Ok(None)
                }
            },
            None => {
                drop(test);
                unused(other);
                Ok(None)
            }
        },
        None => {
            unused(chosen);
            unused(other);
            Ok(None)
        }
    }
}

/// An `if` with its `else`.
pub fn if_else_statement(
    alloc: Global,
    span: Span,
    test: Found,
    chosen: Judged<Vec<Statement>>,
    other: Judged<Vec<Statement>>,
) -> Result<Judged<Vec<Statement>>, AllocError>
    ensures { IfOk result (λ r. (s : scopes.Scope) → judged_of statements_of r s
        ≡ squeezed_part (statement_rules.if_else_judged span (found_of test s)
        (judged_of statements_of chosen s) (judged_of statements_of other s))) }
{
    let wrong = fails_integer(&test.value);
    let fault = three_or_fault(
        test.fault,
        chosen.fault,
        other.fault,
        wrong,
        FaultKind::Mismatch,
        span.start,
    );
    let number = number_in(test.value);
    let Ok(chosen) = only_boxed(alloc, chosen.value) else {
        unused(number);
        unused(other.value);
        return Err(AllocError);
    };
    let Ok(other) = only_boxed(alloc, other.value) else {
        unused(number);
        unused(chosen);
        return Err(AllocError);
    };
    match if_else_of(alloc, span, number, chosen, other) {
        Ok(value) => Ok(Judged { fault, value }),
        Err(error) => Err(error),
    }
}

// ---- `switch` (C17 6.8.4.2)

// The promoted type of an integer in an object of this type.
fn promoted_in(of: &CType) -> Option<IntType>
    ensures { (place : typed.Place) → result ≡ option_map (λ e. promoted (type_of e))
        (values.number_stored place (base_of of.now.base) of.now.lengths.items) }
{
    match of.base {
        Base::Integer(integer) => if of.lengths.is_empty() {
            Some(mc_value::promote(integer))
        } else {
            None
        },
        Base::Void => None,
        Base::Tagged(_) => None,
    }
}

/// The promoted type of an integer.
fn promoted_type(value: &Value) -> Option<IntType>
    ensures { result ≡ option_map (λ e. promoted (type_of e))
        (values.number_in (value_of value.now)) }
{
    match value {
        Value::Number(number) => Some(mc_value::promote(number.integer_type())),
        Value::Stored(_, of) => promoted_in(of),
        Value::Borrowed { .. } => None,
        Value::Returned(..) => None,
        Value::Done(_) => None,
        Value::Assigned(_) => None,
        Value::Designator => None,
    }
}

/// The type of the labels of a `switch` on this expression (C17 6.8.4.2p5).
pub fn label_type(value: &Found) -> Option<IntType>
    ensures { result ≡ option_map (λ e. promoted (type_of e))
        (option_and_then values.number_in (option_map value_of value.now.value)) }
{
    match &value.value {
        Some(value) => promoted_type(value),
        None => None,
    }
}

// The items of a compound statement, taken out of it.
fn items_of(alloc: Global, body: &mut Statement) -> Option<Vec<Statement>>
    ensures { option_map statements_of result ≡ statement_rules.items_of (statement_of body.old) }
{
    match body {
        Statement::Compound { items, .. } => Some(std::mem::replace(items, Vec::new(alloc))),
        Statement::Label { .. }
        | Statement::Declaration { .. }
        | Statement::Null { .. }
        | Statement::Effect { .. }
        | Statement::If { .. }
        | Statement::IfElse { .. }
        | Statement::Switch { .. }
        | Statement::For { .. }
        | Statement::DoWhile { .. }
        | Statement::Break { .. }
        | Statement::Continue { .. }
        | Statement::Return { .. } => None,
    }
}

fn items_in(alloc: Global, body: Option<Statement>) -> Option<Vec<Statement>>
    ensures { option_map statements_of result
        ≡ option_and_then statement_rules.items_of (option_map statement_of body) }
{
    match body {
        Some(mut body) => {
            let items = items_of(alloc, &mut body);
            drop(body);
            items
        }
        None => None,
    }
}

fn is_compound(tree: &Tree<'_>) -> bool
    ensures { result ≡ statement_rules.is_compound (units.statement_of tree.now) }
{
    matches!(tree, Tree::Compound { .. })
}

fn switch_with(
    alloc: Global,
    span: Span,
    keyword: Span,
    value: Expression,
    items: Vec<Statement>,
) -> Result<Option<Vec<Statement>>, AllocError>
    ensures { IfOk result (λ r. option_map statements_of r ≡ Some (statement_rules.alone
        (typed.Switch (promote (expression_of value)) (statements_of items) keyword span))) }
{
    match conversions::promote(alloc, value) {
        Ok(value) => listed(
            alloc,
            Statement::Switch {
                value,
                items,
                keyword,
                span,
                bit: None,
                absent: None,
            },
        ),
        Err(error) => {
            drop(items);
            Err(error)
        }
    }
}

fn switch_alone(
    alloc: Global,
    span: Span,
    value: Expression,
    items: Vec<Statement>,
) -> Result<Option<Vec<Statement>>, AllocError>
    ensures { IfOk result (λ r. option_map statements_of r ≡ Some (statement_rules.alone
        (typed.Switch (promote (expression_of value)) (statements_of items)
        (statement_rules.keyword 6 span) span))) }
{
    let keyword = first_word(6, span);
    switch_with(alloc, span, keyword, value, items)
}

fn switch_of(
    alloc: Global,
    span: Span,
    value: Option<Expression>,
    items: Option<Vec<Statement>>,
) -> Result<Option<Vec<Statement>>, AllocError>
    ensures { IfOk result (λ r. option_map statements_of r
        ≡ lift2 (λ e items. statement_rules.alone
        (typed.Switch (promote e) items (statement_rules.keyword 6 span) span))
        (option_map expression_of value) (option_map statements_of items)) }
{
    match value {
        Some(value) => match items {
            Some(items) => switch_alone(alloc, span, value, items),
            None => {
                drop(value);
                Ok(None)
            }
        },
        None => {
            unused(items);
            Ok(None)
        }
    }
}

/// A `switch`, from what is found of its expression and of its body, which is this statement.
pub fn switch_statement(
    alloc: Global,
    span: Span,
    tree: &Tree<'_>,
    value: Found,
    body: Judged<Vec<Statement>>,
) -> Result<Judged<Vec<Statement>>, AllocError>
    ensures { IfOk result (λ r. (s : scopes.Scope) → judged_of statements_of r s
        ≡ squeezed_part (statement_rules.switch_judged span (units.statement_of tree.now)
        (found_of value s) (judged_of statements_of body s))) }
{
    let wrong = fails_integer(&value.value) || !is_compound(tree);
    let fault = two_or_fault(
        value.fault,
        body.fault,
        wrong,
        FaultKind::Mismatch,
        span.start,
    );
    let number = number_in(value.value);
    let items = items_in(alloc, only_in(body.value));
    match switch_of(alloc, span, number, items) {
        Ok(value) => Ok(Judged { fault, value }),
        Err(error) => Err(error),
    }
}
