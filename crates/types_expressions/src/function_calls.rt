//! Calls (C17 6.5.2.2).
ghost use Rattle.std.specs.Prelude.{◌≡◌, IfOk, Ok, map, not, ◌&&◌, is_none, option_map};
ghost use Rattle.mc_tree.specs.Views.{name_of};
ghost use Rattle.mc_typed.specs.Tree as typed;
ghost use Rattle.mc_typed.specs.Views.{argument_of, call_of, expression_of};
ghost use Rattle.types_faults.specs.Faults.{least_of};
ghost use Rattle.types_rules.specs.Scopes as scopes;
ghost use Rattle.types_rules.specs.Calls as calls;
ghost use Rattle.types_scopes.specs.Types.{base_of, signature_of};
ghost use Rattle.types_scopes.specs.Views.{scope_of, structure_of};
ghost use Rattle.types_scopes.specs.Given.{arguments_of, given_of};
ghost use Rattle.types_scopes.specs.Found.{found_of, value_of};
ghost use Rattle.types_faults.specs.Kept.{listed};
ghost use Rattle.types_scopes.specs.steps.Squeezed.{squeezed};
ghost use Rattle.types_expressions.specs.steps.Callees.{given_number, meaning_of_callee, only_argument, output_with};

use crate::arguments::add_temporary;
use crate::callee::Callee;
use crate::operands::found;
use mc_tree::Identifier;
use mc_typed::{Argument, Effect, Expression, FunctionCall, Slot, Span};
use std::alloc::{AllocError, Global};
use std::sync::Arc;
use types_faults::{Fault, FaultKind, after, fault_where, or_fault};
use types_scopes::found::{Found, Given};
use types_scopes::value::{Value, done};
use types_scopes::{Base, Scope, Signature, Structure, is_complete};

// ---- the two external functions

fn is_input(name: &Identifier<'_>) -> bool
    ensures { result ≡ scopes.is_input (name_of name.now) }
{
    name.text == b"mcdc_in".as_slice()
}

fn is_output(name: &Identifier<'_>) -> bool
    ensures { result ≡ scopes.is_output (name_of name.now) }
{
    name.text == b"mcdc_out".as_slice()
}

fn is_external(name: &Identifier<'_>) -> bool
    ensures { result ≡ scopes.is_external (name_of name.now) }
{
    let input = is_input(name);
    let output = is_output(name);
    input || output
}

// The number of the function with this name, where it has a body.
fn function_number(scope: &Scope<'_>, name: &Identifier<'_>) -> Option<u32>
    ensures { result ≡ scopes.function_number (name_of name.now) (scope_of scope.now) }
{
    scope.bodies.number(name.text)
}

// ---- faults

// Whether a function can give the type (C17 6.5.2.2p1).
fn gives(structures: &[Structure<'_>], base: Base) -> bool
    ensures { result ≡ calls.gives (map structure_of structures.now) (base_of base) }
{
    match base {
        Base::Void => true,
        Base::Integer(_) => true,
        Base::Tagged(_) => is_complete(structures, base),
    }
}

fn signature_fault(
    at: u32,
    count: usize,
    structures: &[Structure<'_>],
    signature: &Option<Arc<Signature>>,
) -> Option<Fault>
    ensures { listed result ≡ calls.signature_faults at count (map structure_of structures.now)
        (option_map (λ f. signature_of f.value) signature.now) }
{
    match signature {
        Some(signature) => {
            let other_count = count != signature.parameters.len();
            let can_give = gives(structures, signature.result);
            fault_where(other_count || !can_give, FaultKind::Mismatch, at)
        }
        None => None,
    }
}

// Whether a function has no body, and is none of the external ones.
fn has_no_body(scope: &Scope<'_>, name: &Identifier<'_>) -> bool
    ensures { result ≡ (not (scopes.is_external (name_of name.now))
        && is_none (scopes.function_number (name_of name.now) (scope_of scope.now))) }
{
    let external = is_external(name);
    let absent = function_number(scope, name).is_none();
    !external && absent
}

fn callee_fault(
    scope: &Scope<'_>,
    name: &Identifier<'_>,
    at: u32,
    count: usize,
    callee: &Callee,
) -> Option<Fault>
    ensures { result ≡ least_of (calls.callee_faults (name_of name.now) at count
        (scope_of scope.now)
        (meaning_of_callee callee.now)) }
{
    match callee {
        Callee::Missing => Some(Fault {
            kind: FaultKind::Undeclared,
            at: name.span.start,
        }),
        Callee::Function(signature) => {
            let own = signature_fault(at, count, &scope.structures, signature);
            let absent = has_no_body(scope, name);
            or_fault(own, absent, FaultKind::NoBody, name.span.start)
        }
        Callee::Other => Some(Fault {
            kind: FaultKind::Mismatch,
            at,
        }),
    }
}

// ---- values

// The argument of a call that has one.
fn only(arguments: Vec<Argument>) -> Option<Argument>
    ensures { option_map argument_of result ≡ only_argument (arguments_of arguments) }
{
    let mut arguments = arguments;
    if arguments.len() == 1 {
        let one = arguments.pop();
        drop(arguments);
        one
    } else {
        drop(arguments);
        None
    }
}

// The number that an argument is, taken out of it.
fn number_of(argument: &mut Argument, span: Span) -> Option<Expression>
    ensures { option_map expression_of result ≡ given_number (argument_of argument.old) }
{
    match argument {
        Argument::Number { value } => { Some(std::mem::replace(value, Expression::Input { span })) }
        Argument::Structure { .. } | Argument::Array { .. } | Argument::Again { .. } => None,
    }
}

fn output_with(alloc: Global, span: Span, argument: Argument) -> Result<Option<Value>, AllocError>
    ensures { IfOk result (λ r. option_map value_of r ≡ output_with span (argument_of argument)) }
{
    let mut argument = argument;
    let number = number_of(&mut argument, span);
    drop(argument);
    match number {
        Some(value) => done(alloc, Effect::Output { value, span }),
        None => Ok(None),
    }
}

#[tactic(auto, using(crate::proofs::Calls::output_of_only))]
fn output_of(
    alloc: Global,
    span: Span,
    arguments: Vec<Argument>,
) -> Result<Option<Value>, AllocError>
    ensures { IfOk result (λ r. option_map value_of r
        ≡ calls.output_of span (arguments_of arguments)) }
{
    match only(arguments) {
        Some(argument) => output_with(alloc, span, argument),
        None => Ok(None),
    }
}

fn function_call(
    function: u32,
    arguments: Vec<Argument>,
    slot: Option<Slot>,
    span: Span,
) -> FunctionCall
    ensures { call_of result ≡ typed.call function (arguments_of arguments) slot span }
{
    FunctionCall {
        function,
        arguments,
        result: slot,
        span,
    }
}

fn returned(
    alloc: Global,
    scope: &Scope<'_>,
    function: u32,
    arguments: Vec<Argument>,
    span: Span,
    base: Base,
) -> Result<Option<Value>, AllocError>
    ensures { IfOk result (λ r. option_map value_of r
        ≡ calls.returned (scope_of scope.now) function (arguments_of arguments) span
        (base_of base)) }
{
    match base {
        Base::Void => {
            let call = function_call(function, arguments, None, span);
            done(alloc, Effect::Call { call })
        }
        Base::Integer(of) => {
            let call = function_call(function, arguments, None, span);
            Ok(Some(Value::Number(Expression::Call { call, of })))
        }
        Base::Tagged(number) => {
            if !is_complete(&scope.structures, base) {
                drop(arguments);
                return Ok(None);
            }
            let slot = scope.next_slot();
            let call = function_call(function, arguments, Some(slot), span);
            Ok(Some(Value::Returned(call, number)))
        }
    }
}

fn called(
    alloc: Global,
    scope: &Scope<'_>,
    name: &Identifier<'_>,
    span: Span,
    base: Base,
    arguments: Vec<Argument>,
) -> Result<Option<Value>, AllocError>
    ensures { IfOk result (λ r. option_map value_of r
        ≡ calls.called (name_of name.now) span (scope_of scope.now) (base_of base)
        (arguments_of arguments)) }
{
    if is_input(name) {
        drop(arguments);
        return Ok(Some(Value::Number(Expression::Input { span })));
    }
    if is_output(name) {
        return output_of(alloc, span, arguments);
    }
    match function_number(scope, name) {
        Some(function) => returned(alloc, scope, function, arguments, span, base),
        None => {
            drop(arguments);
            Ok(None)
        }
    }
}

fn call_value(
    alloc: Global,
    scope: &Scope<'_>,
    name: &Identifier<'_>,
    span: Span,
    callee: &Callee,
    arguments: Option<Vec<Argument>>,
) -> Result<Option<Value>, AllocError>
    ensures { IfOk result (λ r. option_map value_of r
        ≡ calls.call_value (name_of name.now) span (meaning_of_callee callee.now)
        (scope_of scope.now) (option_map arguments_of arguments)) }
{
    match callee {
        Callee::Function(signature) => match signature {
            Some(signature) => match arguments {
                Some(arguments) => called(alloc, scope, name, span, signature.result, arguments),
                None => Ok(None),
            },
            None => {
                drop(arguments);
                Ok(None)
            }
        },
        Callee::Missing | Callee::Other => {
            drop(arguments);
            Ok(None)
        }
    }
}

// A structure that a call returns has an object of its own (C17 6.2.4p8); a call without a type
// has no copies.
fn after_call(
    alloc: Global,
    scope: &mut Scope<'_>,
    value: &Option<Value>,
    copied: u64,
) -> Result<(), AllocError>
    ensures { IfOk result (λ _. scope_of scope.new
        ≡ calls.after_call (option_map value_of value.now) copied (scope_of scope.old)) }
{
    match value {
        Some(value) => match value {
            Value::Returned(_, number) => {
                add_temporary(alloc, scope, *number)?;
                Ok(())
            }
            _ => Ok(()),
        },
        None => {
            scope.uncount(copied);
            Ok(())
        }
    }
}

// The value of a call, and the object that it has.
fn with_object(
    alloc: Global,
    scope: &mut Scope<'_>,
    value: Result<Option<Value>, AllocError>,
    copied: u64,
) -> Result<Option<Value>, AllocError>
    ensures value { IfOk result (λ r. value ≡ Ok r) }
    ensures scope { IfOk result (λ r. scope_of scope.new
        ≡ calls.after_call (option_map value_of r) copied (scope_of scope.old)) }
{
    match value {
        Ok(value) => match after_call(alloc, scope, &value, copied) {
            Ok(()) => Ok(value),
            Err(error) => {
                drop(value);
                Err(error)
            }
        },
        Err(error) => Err(error),
    }
}

/// A call with so many arguments.
pub fn call(
    alloc: Global,
    scope: &mut Scope<'_>,
    name: &Identifier<'_>,
    count: usize,
    span: Span,
    callee: &Callee,
    given: Given<Vec<Argument>>,
) -> Result<Found, AllocError>
    ensures { IfOk result (λ r. found_of r (scope_of scope.new)
        ≡ squeezed (calls.call_found (name_of name.now) count span (meaning_of_callee callee.now)
        (given_of arguments_of given (scope_of scope.old)))) }
{
    let own = callee_fault(scope, name, span.start, count, callee);
    let fault = after(given.fault, own);
    let value = call_value(alloc, scope, name, span, callee, given.value);
    let value = with_object(alloc, scope, value, given.copied);
    found(fault, value, false, false)
}

/// A comma operator, which elsewhere than between the clauses of a `for` is an outside form.
pub fn comma(at: u32, given: Given<Vec<Argument>>) -> Found
    ensures { (s : scopes.Scope) → found_of result s
        ≡ squeezed (calls.comma_found at (given_of arguments_of given s)) }
{
    Found {
        fault: or_fault(given.fault, true, FaultKind::Mismatch, at),
        value: None,
        place: false,
        constant: false,
    }
}
