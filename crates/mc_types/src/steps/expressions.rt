//! Expressions, from what is found of their operands (C17 6.5).
ghost use Rattle.std.specs.Prelude.{◌≡◌, ℕ, IfOk, [], false, option_copied, option_map};
ghost use Rattle.mc_tree.specs.Tree as source_tree;
ghost use Rattle.mc_tree.specs.Views.{expression_of, name_of};
ghost use Rattle.mc_typed.specs.Tree.{Arguments};
ghost use Rattle.types_rules.specs.Scopes as scopes;
ghost use Rattle.types_rules.specs.Calls as calls;
ghost use Rattle.types_rules.specs.Judgement as judgement;
ghost use Rattle.types_scopes.specs.Given.{arguments_of, given_of};
ghost use Rattle.types_scopes.specs.Types.{kind_of, type_of};
ghost use Rattle.types_scopes.specs.Views.{scope_of};
ghost use Rattle.types_scopes.specs.Found.{found_of, judged_of};
ghost use Rattle.types_scopes.specs.steps.Squeezed.{squeezed, squeezed_part};
ghost use Rattle.types_expressions.specs.steps.Callees.{meaning_of_callee};
ghost use Rattle.types_expressions.specs.steps.Gathered.{squeezed_given};
ghost use Rattle.mc_types.specs.Loops.{TakesArgument};

use crate::unused;
use mc_tree::{
    AssignmentOperator, BinaryOperator, Expression, Identifier, StepOperator, UnaryOperator,
};
use mc_typed::{Argument, Span};
use std::alloc::{AllocError, Global};
use types_expressions::Callee;
use types_scopes::found::{Found, Given, Judged};
use types_scopes::{CType, ParameterKind, Scope};

/// Arguments so far, and one more for its parameter where there is one.
#[inline(never)]
pub(crate) fn argument(
    alloc: Global,
    scope: &mut Scope<'_>,
    given: Given<Vec<Argument>>,
    parameter: Option<&ParameterKind>,
    tree: &Expression<'_>,
    found: Result<Found, AllocError>,
) -> Result<Given<Vec<Argument>>, AllocError>
    ensures { (first : scopes.Scope)
        → IfOk found (λ y. found_of y (scope_of scope.old)
        ≡ squeezed (judgement.judge (expression_of tree.now) first))
        → IfOk result (λ r. TakesArgument (option_map kind_of (option_copied parameter.entry))
        (expression_of tree.now) given first r (scope_of scope.new)) }
{
    match found {
        Ok(found) => {
            match types_expressions::argument(alloc, scope, tree.span().start, parameter, found) {
                Ok(one) => types_expressions::gather(given, one),
                Err(error) => {
                    unused::given(given);
                    Err(error)
                }
            }
        }
        Err(error) => {
            unused::given(given);
            Err(error)
        }
    }
}

/// A call with this number of arguments (C17 6.5.2.2).
#[inline(never)]
pub(crate) fn call(
    alloc: Global,
    scope: &mut Scope<'_>,
    name: &Identifier<'_>,
    count: usize,
    span: Span,
    callee: Callee,
    given: Result<Given<Vec<Argument>>, AllocError>,
) -> Result<Found, AllocError>
    ensures { (all : source_tree.Expressions) (first : scopes.Scope)
        → count ≡ calls.argument_count all
        → calls.parameters_of (meaning_of_callee callee)
        ≡ calls.parameters_of (scopes.meaning_of (name_of name.now) first)
        → ((n : source_tree.Name) (k : ℕ) (at : Span) (x : calls.Given Arguments)
        → calls.call_found n k at (meaning_of_callee callee) x
        ≡ calls.call_found n k at (scopes.meaning_of (name_of name.now) first) x)
        → IfOk given (λ y. given_of arguments_of y (scope_of scope.old) ≡ squeezed_given
        (judgement.judge_arguments all (calls.parameters_of (meaning_of_callee callee)) first))
        → IfOk result (λ r. found_of r (scope_of scope.new)
        ≡ squeezed (judgement.judge (source_tree.Call (name_of name.now) all span) first)) }
{
    match given {
        Ok(given) => {
            let found = types_expressions::call(alloc, scope, name, count, span, &callee, given);
            drop(callee);
            found
        }
        Err(error) => {
            drop(callee);
            Err(error)
        }
    }
}

/// An element of an array (C17 6.5.2.1).
#[inline(never)]
pub(crate) fn index(
    alloc: Global,
    scope: &Scope<'_>,
    span: Span,
    first: Found,
    second: Result<Found, AllocError>,
) -> Result<Found, AllocError>
    ensures { (a b : source_tree.Expression) (start next : scopes.Scope)
        → found_of first next ≡ squeezed (judgement.judge a start)
        → IfOk second (λ y. found_of y (scope_of scope.now) ≡ squeezed (judgement.judge b next))
        → IfOk result (λ r. found_of r (scope_of scope.now)
        ≡ squeezed (judgement.judge (source_tree.Index a b span) start)) }
{
    match second {
        Ok(second) => types_expressions::index(alloc, scope, span, first, second),
        Err(error) => {
            unused::found(first);
            Err(error)
        }
    }
}

/// A member of a structure (C17 6.5.2.3).
#[inline(never)]
pub(crate) fn member(
    alloc: Global,
    scope: &Scope<'_>,
    name: &Identifier<'_>,
    span: Span,
    found: Result<Found, AllocError>,
) -> Result<Found, AllocError>
    ensures { (a : source_tree.Expression) (first : scopes.Scope)
        → IfOk found (λ y. found_of y (scope_of scope.now) ≡ squeezed (judgement.judge a first))
        → IfOk result (λ r. found_of r (scope_of scope.now)
        ≡ squeezed (judgement.judge (source_tree.Member a (name_of name.now) span) first)) }
{
    match found {
        Ok(object) => types_expressions::member(alloc, scope, name, span, object),
        Err(error) => Err(error),
    }
}

/// `++` or `--` after its operand (C17 6.5.2.4).
#[inline(never)]
pub(crate) fn postfix_step(
    alloc: Global,
    operator: StepOperator,
    span: Span,
    found: Result<Found, AllocError>,
) -> Result<Found, AllocError>
    ensures { (a : source_tree.Expression) (first last : scopes.Scope)
        → IfOk found (λ y. found_of y last ≡ squeezed (judgement.judge a first))
        → IfOk result (λ r. found_of r last
        ≡ squeezed (judgement.judge (source_tree.PostfixStep operator a span) first)) }
{
    match found {
        Ok(operand) => types_expressions::postfix_step(alloc, operator, span, operand),
        Err(error) => Err(error),
    }
}

/// `++` or `--` before its operand (C17 6.5.3.1).
#[inline(never)]
pub(crate) fn prefix_step(
    alloc: Global,
    operator: StepOperator,
    span: Span,
    found: Result<Found, AllocError>,
) -> Result<Found, AllocError>
    ensures { (a : source_tree.Expression) (first last : scopes.Scope)
        → IfOk found (λ y. found_of y last ≡ squeezed (judgement.judge a first))
        → IfOk result (λ r. found_of r last
        ≡ squeezed (judgement.judge (source_tree.PrefixStep operator a span) first)) }
{
    match found {
        Ok(operand) => types_expressions::prefix_step(alloc, operator, span, operand),
        Err(error) => Err(error),
    }
}

/// An operator before its operand (C17 6.5.3.3).
#[inline(never)]
pub(crate) fn unary(
    alloc: Global,
    operator: UnaryOperator,
    span: Span,
    found: Result<Found, AllocError>,
) -> Result<Found, AllocError>
    ensures { (a : source_tree.Expression) (first last : scopes.Scope)
        → IfOk found (λ y. found_of y last ≡ squeezed (judgement.judge a first))
        → IfOk result (λ r. found_of r last
        ≡ squeezed (judgement.judge (source_tree.Unary operator a span) first)) }
{
    match found {
        Ok(operand) => types_expressions::unary(alloc, operator, span, operand),
        Err(error) => Err(error),
    }
}

/// The comma operator, between its operands (C17 6.5.17).
#[inline(never)]
pub(crate) fn comma(
    span: Span,
    given: Result<Given<Vec<Argument>>, AllocError>,
) -> Result<Found, AllocError>
    ensures { (all : source_tree.Expressions) (first last : scopes.Scope)
        → IfOk given (λ y. given_of arguments_of y last
        ≡ squeezed_given (judgement.judge_arguments all [] first))
        → IfOk result (λ r. found_of r last
        ≡ squeezed (judgement.judge (source_tree.Comma all span) first)) }
{
    match given {
        Ok(given) => Ok(types_expressions::comma(span.start, given)),
        Err(error) => Err(error),
    }
}

/// A cast (C17 6.5.4).
#[inline(never)]
pub(crate) fn cast(
    alloc: Global,
    span: Span,
    of: Judged<CType>,
    operand: &Expression<'_>,
    found: Result<Found, AllocError>,
) -> Result<Found, AllocError>
    ensures { (all : source_tree.Specifiers) (stars : ℕ) (at : Span)
        (first next last : scopes.Scope)
        → judged_of type_of of next
        ≡ squeezed_part (judgement.typed_by at.start all
        (judgement.judge_specifiers false all first))
        → IfOk found (λ y. found_of y last
        ≡ squeezed (judgement.judge (expression_of operand.now) next))
        → IfOk result (λ r. found_of r last ≡ squeezed (judgement.judge
        (source_tree.Cast (source_tree.type_name all stars at) (expression_of operand.now) span)
        first)) }
{
    match found {
        Ok(found) => types_expressions::cast(alloc, span, of, operand, found),
        Err(error) => {
            drop(of);
            Err(error)
        }
    }
}

/// An operator with two operands (C17 6.5.5 to 6.5.14).
#[inline(never)]
pub(crate) fn binary(
    alloc: Global,
    operator: BinaryOperator,
    span: Span,
    first: Found,
    second: Result<Found, AllocError>,
) -> Result<Found, AllocError>
    ensures { (a b : source_tree.Expression) (start next last : scopes.Scope)
        → found_of first next ≡ squeezed (judgement.judge a start)
        → IfOk second (λ y. found_of y last ≡ squeezed (judgement.judge b next))
        → IfOk result (λ r. found_of r last
        ≡ squeezed (judgement.judge (source_tree.Binary operator a b span) start)) }
{
    match second {
        Ok(second) => types_expressions::binary(alloc, operator, span, first, second),
        Err(error) => {
            unused::found(first);
            Err(error)
        }
    }
}

/// `?:`, whose first two operands are these (C17 6.5.15).
#[inline(never)]
pub(crate) fn conditional(
    alloc: Global,
    span: Span,
    test: Found,
    chosen: Found,
    other: Result<Found, AllocError>,
) -> Result<Found, AllocError>
    ensures { (a b c : source_tree.Expression) (start next last end : scopes.Scope)
        → found_of test next ≡ squeezed (judgement.judge a start)
        → found_of chosen last ≡ squeezed (judgement.judge b next)
        → IfOk other (λ y. found_of y end ≡ squeezed (judgement.judge c last))
        → IfOk result (λ r. found_of r end
        ≡ squeezed (judgement.judge (source_tree.Conditional a b c span) start)) }
{
    match other {
        Ok(other) => types_expressions::conditional(alloc, span, test, chosen, other),
        Err(error) => {
            unused::found(test);
            unused::found(chosen);
            Err(error)
        }
    }
}

/// An assignment (C17 6.5.16).
#[inline(never)]
pub(crate) fn assignment(
    alloc: Global,
    scope: &Scope<'_>,
    operator: AssignmentOperator,
    span: Span,
    first: Found,
    second: Result<Found, AllocError>,
) -> Result<Found, AllocError>
    ensures { (a b : source_tree.Expression) (start next : scopes.Scope)
        → found_of first next ≡ squeezed (judgement.judge a start)
        → IfOk second (λ y. found_of y (scope_of scope.now) ≡ squeezed (judgement.judge b next))
        → IfOk result (λ r. found_of r (scope_of scope.now)
        ≡ squeezed (judgement.judge (source_tree.Assignment operator a b span) start)) }
{
    match second {
        Ok(second) => types_expressions::assignment(alloc, scope, operator, span, first, second),
        Err(error) => {
            unused::found(first);
            Err(error)
        }
    }
}
