//! Labels of a `switch` (C17 6.8.1, 6.8.4.2).
ghost use Rattle.std.specs.Prelude.{◌≡◌, ◌++◌, Some, IfOk, OnOk, option_map};
ghost use Rattle.mc_value.specs.Conversions as conversions;
ghost use Rattle.mc_typed.specs.Tree as typed;
ghost use Rattle.types_faults.specs.declared.fault.FaultKind.TheVariants.{DuplicateLabel};
ghost use Rattle.types_faults.specs.Faults.{fault_if, least_of};
ghost use Rattle.types_rules.specs.Scopes as scopes;
ghost use Rattle.types_rules.specs.Values as typing_values;
ghost use Rattle.types_rules.specs.Constants as constants;
ghost use Rattle.types_rules.specs.Statements as statements;
ghost use Rattle.types_scopes.specs.Views.{scope_of};
ghost use Rattle.types_scopes.specs.Found.{found_of, judged_of};
ghost use Rattle.types_scopes.specs.Statements.{statements_of};
ghost use Rattle.types_scopes.specs.steps.Squeezed.{squeezed_part};

use mc_typed::{Span, Statement};
use mc_value::IntType;
use std::alloc::{AllocError, Global};
use types_faults::{Fault, FaultKind, after, lesser, or_fault};
use types_scopes::found::{Found, Judged};
use types_scopes::leaves::{alone, leaf};
use types_scopes::values::{constant_found, fault_of_constant};
use types_scopes::{Labels, Scope};

// ---- what the labels so far say of one more

fn converted(to: Option<IntType>, value: Option<i128>) -> Option<i128>
    ensures { result ≡ typing_values.lift2 conversions.converted to value }
{
    match to {
        Some(to) => match value {
            Some(value) => Some(mc_value::convert(value, to)),
            None => None,
        },
        None => None,
    }
}

// The value in the type of the labels (C17 6.8.4.2p5).
fn label_value(labels: &Option<Labels>, value: Option<i128>) -> Option<i128>
    ensures { result ≡ statements.label_value labels.now value }
{
    match labels {
        Some(labels) => converted(labels.value_type(), value),
        None => None,
    }
}

fn is_repeated(labels: &Option<Labels>, value: Option<i128>) -> bool
    ensures { result ≡ statements.is_repeated labels.now value }
{
    match labels {
        Some(labels) => match value {
            Some(value) => labels.has_value(value),
            None => false,
        },
        None => false,
    }
}

fn has_default_label(labels: &Option<Labels>) -> bool
    ensures { result ≡ statements.has_default_label labels.now }
{
    match labels {
        Some(labels) => labels.has_default(),
        None => false,
    }
}

// The fault of a label that stands here, perhaps a second time.
fn label_fault(labels: &Option<Labels>, repeated: bool, at: u32) -> Option<Fault>
    ensures { result ≡ least_of (statements.place_faults labels.now at
        ++ fault_if repeated DuplicateLabel at) }
{
    match labels {
        Some(_) => or_fault(None, repeated, FaultKind::DuplicateLabel, at),
        None => {
            let outside = Fault {
                kind: FaultKind::Mismatch,
                at,
            };
            or_fault(Some(outside), repeated, FaultKind::DuplicateLabel, at)
        }
    }
}

// ---- one more label

fn add_value(labels: &mut Option<Labels>, value: i128) -> Result<(), AllocError>
    ensures { OnOk result (labels.new ≡ option_map (statements.with_value value) labels.old) }
{
    match labels {
        Some(labels) => labels.add(value),
        None => Ok(()),
    }
}

fn add_label(scope: &mut Scope<'_>, value: Option<i128>) -> Result<(), AllocError>
    ensures { OnOk result (scope_of scope.new ≡ statements.with_label value (scope_of scope.old)) }
{
    match value {
        Some(value) => add_value(&mut scope.labels, value),
        None => Ok(()),
    }
}

fn set_default(labels: &mut Option<Labels>)
    ensures { labels.new ≡ option_map statements.default_in labels.old }
{
    match labels {
        Some(labels) => labels.set_default(),
        None => {}
    }
}

fn add_default(scope: &mut Scope<'_>)
    ensures { scope_of scope.new ≡ statements.with_default (scope_of scope.old) }
{
    set_default(&mut scope.labels);
}

// ---- `default`

/// A `default` label, which is among the labels from now on.
pub fn default_label(
    alloc: Global,
    scope: &mut Scope<'_>,
    label: Span,
) -> Result<Judged<Vec<Statement>>, AllocError>
    ensures { IfOk result (λ r. judged_of statements_of r (scope_of scope.new)
        ≡ squeezed_part (statements.default_judged label (scope_of scope.old))) }
{
    let repeated = has_default_label(&scope.labels);
    let fault = label_fault(&scope.labels, repeated, label.start);
    add_default(scope);
    leaf(
        alloc,
        fault,
        Statement::Label {
            value: None,
            span: label,
            mark: None,
        },
    )
}

// ---- `case`

// The value of a label from what is found of its expression.
fn case_value(labels: &Option<Labels>, found: &Found) -> Option<i128>
    ensures { (s : scopes.Scope)
        → result ≡ statements.label_value labels.now
        (constants.constant_found (found_of found.now s)) }
{
    label_value(labels, constant_found(found))
}

// The fault of a label itself.
fn case_fault(labels: &Option<Labels>, label: Span, at: u32, found: &Found) -> Option<Fault>
    ensures { (s : scopes.Scope) → result ≡ least_of (statements.case_faults label at
        found.now.constant (typing_values.number_found (found_of found.now s)) labels.now) }
{
    let value = case_value(labels, found);
    let repeated = is_repeated(labels, value);
    let own = label_fault(labels, repeated, label.start);
    let constant = fault_of_constant(at, found);
    lesser(constant, own)
}

fn case_alone(
    alloc: Global,
    label: Span,
    value: Option<i128>,
) -> Result<Option<Vec<Statement>>, AllocError>
    ensures { IfOk result (λ r. option_map statements_of r
        ≡ option_map (λ v. statements.alone (typed.Label (Some v) label)) value) }
{
    match value {
        Some(value) => Ok(Some(alone(
            alloc,
            Statement::Label {
                value: Some(value),
                span: label,
                mark: None,
            },
        )?)),
        None => Ok(None),
    }
}

// A `case` label, from what is found of its expression, which is lent.
fn case_of(
    alloc: Global,
    scope: &mut Scope<'_>,
    label: Span,
    at: u32,
    found: &Found,
) -> Result<Judged<Vec<Statement>>, AllocError>
    ensures { IfOk result (λ r. judged_of statements_of r (scope_of scope.new)
        ≡ squeezed_part (statements.case_judged label at
        (found_of found.now (scope_of scope.old)))) }
{
    let value = case_value(&scope.labels, found);
    let own = case_fault(&scope.labels, label, at, found);
    let fault = after(found.fault, own);
    add_label(scope, value)?;
    let value = case_alone(alloc, label, value)?;
    Ok(Judged { fault, value })
}

/// A `case` label, from what is found of its expression, which starts at `at`. It is among the
/// labels from now on.
pub fn case_label(
    alloc: Global,
    scope: &mut Scope<'_>,
    label: Span,
    at: u32,
    found: Found,
) -> Result<Judged<Vec<Statement>>, AllocError>
    ensures { IfOk result (λ r. judged_of statements_of r (scope_of scope.new)
        ≡ squeezed_part (statements.case_judged label at (found_of found (scope_of scope.old)))) }
{
    let judged = case_of(alloc, scope, label, at, &found);
    drop(found);
    judged
}
