//! Casts (C17 6.5.4).
ghost use Rattle.std.specs.Prelude.{◌≡◌, ◌++◌, ◌&&◌, IfOk, true, option_map};
ghost use Rattle.mc_tree.specs.Views as syntax;
ghost use Rattle.mc_typed.specs.Tree as typed_tree;
ghost use Rattle.mc_typed.specs.Views.{effect_of, expression_of};
ghost use Rattle.types_faults.specs.Faults.{least_of};
ghost use Rattle.types_faults.specs.Kept.{listed};
ghost use Rattle.types_rules.specs.Scopes as scopes;
ghost use Rattle.types_rules.specs.Values as values;
ghost use Rattle.types_rules.specs.Expressions as expressions;
ghost use Rattle.types_scopes.specs.Types.{base_of, type_of};
ghost use Rattle.types_scopes.specs.Found.{found_of, judged_of, kind_of, value_of};
ghost use Rattle.types_scopes.specs.steps.Squeezed.{squeezed};

use crate::operands::{boxed, found};
use mc_tree::Expression;
use mc_typed::{self as typed, Effect, Span};
use mc_value::IntType;
use std::alloc::{AllocError, Global};
use types_faults::{Fault, FaultKind, after_two, fault_where};
use types_scopes::bare::discarded_fault;
use types_scopes::found::{Found, Judged, kind_found};
use types_scopes::kind::{Kind, fails_integer};
use types_scopes::value::{Value, done};
use types_scopes::{Base, CType};

// The type of a cast, where it is scalar or void.
fn cast_base(of: &CType) -> Option<Base>
    ensures { option_map base_of result
        ≡ expressions.cast_base (type_of of.now) of.now.lengths.items }
{
    if !of.lengths.is_empty() {
        return None;
    }
    match of.base {
        Base::Void => Some(Base::Void),
        Base::Integer(to) => Some(Base::Integer(to)),
        Base::Tagged(_) => None,
    }
}

fn fault_to(
    at: u32,
    tree: &Expression<'_>,
    kind: Option<Kind<'_>>,
    base: Option<Base>,
) -> Option<Fault>
    ensures { result ≡ least_of (expressions.cast_faults_to at (syntax.expression_of tree.now)
        (option_map kind_of kind.entry) (option_map base_of base)) }
{
    match base {
        Some(Base::Void) => discarded_fault(tree, kind),
        Some(Base::Integer(_) | Base::Tagged(_)) => {
            fault_where(fails_integer(kind), FaultKind::Mismatch, at)
        }
        None => Some(Fault {
            kind: FaultKind::Mismatch,
            at,
        }),
    }
}

fn cast_fault(
    at: u32,
    tree: &Expression<'_>,
    kind: Option<Kind<'_>>,
    of: &Option<CType>,
) -> Option<Fault>
    ensures { result ≡ least_of (expressions.cast_faults at (syntax.expression_of tree.now)
        (option_map kind_of kind.entry) (option_map type_of of.now)) }
{
    match of {
        Some(of) => fault_to(at, tree, kind, cast_base(of)),
        None => None,
    }
}

fn discarding(
    alloc: Global,
    span: Span,
    operand: Option<Effect>,
) -> Result<Option<Value>, AllocError>
    ensures { IfOk result (λ r. option_map value_of r
        ≡ option_map (λ a. values.Done (typed_tree.Discard a span))
        (option_map effect_of operand)) }
{
    match operand {
        Some(operand) => match boxed(alloc, operand) {
            Ok(operand) => done(alloc, Effect::Discard { operand, span }),
            Err(error) => Err(error),
        },
        None => Ok(None),
    }
}

fn converting(
    alloc: Global,
    to: IntType,
    span: Span,
    operand: Option<typed::Expression>,
) -> Result<Option<Value>, AllocError>
    ensures { IfOk result (λ r. option_map value_of r
        ≡ option_map (λ f. values.Number (typed_tree.Convert to true f span))
        (option_map expression_of operand)) }
{
    match operand {
        Some(operand) => match boxed(alloc, operand) {
            Ok(operand) => Ok(Some(Value::Number(typed::Expression::Convert {
                to,
                written: true,
                operand,
                span,
            }))),
            Err(error) => Err(error),
        },
        None => Ok(None),
    }
}

fn cast_value(
    alloc: Global,
    span: Span,
    of: &Option<CType>,
    operand: Option<Value>,
) -> Result<Option<Value>, AllocError>
    ensures { IfOk result (λ r. option_map value_of r
        ≡ expressions.cast_value span (option_map type_of of.now) (option_map value_of operand)) }
{
    match of {
        Some(of) => match operand {
            Some(operand) => match cast_base(of) {
                Some(Base::Void) => discarding(alloc, span, operand.into_discarded()),
                Some(Base::Integer(to)) => converting(alloc, to, span, operand.into_number()),
                Some(Base::Tagged(_)) | None => {
                    drop(operand);
                    Ok(None)
                }
            },
            None => Ok(None),
        },
        None => {
            drop(operand);
            Ok(None)
        }
    }
}

// Whether the cast is, or may be, one to an integer type.
fn may_cast_to_integer(of: &Option<CType>) -> bool
    ensures { result ≡ expressions.may_cast_to_integer (option_map type_of of.now) }
{
    match of {
        Some(of) => matches!(cast_base(of), Some(Base::Integer(_))),
        None => true,
    }
}

// The first fault of a cast, and whether it is built as a constant.
fn judged(
    at: u32,
    of: &Judged<CType>,
    tree: &Expression<'_>,
    operand: &Found,
) -> (Option<Fault>, bool)
    ensures fault { result.0 ≡ least_of (listed of.now.fault ++ (listed operand.now.fault
        ++ expressions.cast_faults at (syntax.expression_of tree.now)
        (option_map values.kind_of (option_map value_of operand.now.value))
        (option_map type_of of.now.value))) }
    ensures constant { result.1 ≡ (operand.now.constant
        && expressions.may_cast_to_integer (option_map type_of of.now.value)) }
{
    let own = cast_fault(at, tree, kind_found(&operand.value), &of.value);
    let integer = may_cast_to_integer(&of.value);
    let fault = after_two(of.fault, operand.fault, own);
    (fault, operand.constant && integer)
}

/// A cast to a type, of an operand that is written so.
pub fn cast(
    alloc: Global,
    span: Span,
    of: Judged<CType>,
    tree: &Expression<'_>,
    operand: Found,
) -> Result<Found, AllocError>
    ensures { IfOk result (λ r. (s : scopes.Scope) → found_of r s
        ≡ squeezed (expressions.cast_found span (judged_of type_of of s)
        (syntax.expression_of tree.now)
        (found_of operand s))) }
{
    let (fault, constant) = judged(span.start, &of, tree, &operand);
    let value = cast_value(alloc, span, &of.value, operand.value);
    drop(of.value);
    found(fault, value, false, constant)
}
