//! Values of integer constant expressions (C17 6.6).
ghost use Rattle.std.specs.Prelude.{◌≡◌, Some, option_map, option_and_then};
ghost use Rattle.mc_value.specs.Conversions as conversions;
ghost use Rattle.mc_typed.specs.Constants.{constant_value};
ghost use Rattle.types_faults.specs.Faults.{least_of};
ghost use Rattle.types_rules.specs.Scopes as scopes;
ghost use Rattle.types_rules.specs.Values as values;
ghost use Rattle.types_rules.specs.Constants as constants;
ghost use Rattle.types_rules.specs.Initializers as initializers;
ghost use Rattle.types_scopes.specs.Found.{found_of, value_of};

use crate::found::Found;
use crate::value::Value;
use mc_typed::constant_value;
use types_faults::{Fault, FaultKind, fault_where};

fn is_zero(value: i128) -> bool
    ensures { result ≡ conversions.is_zero value }
{
    value == 0
}

// The value of an operand, where it has one.
#[tactic(auto, using(crate::proofs::Constants::stored_is_none))]
fn value_of_operand(value: &Value) -> Option<i128>
    ensures { result ≡ option_and_then constant_value (values.number_in (value_of value.now)) }
{
    match value {
        Value::Number(number) => constant_value(number),
        Value::Stored(_, _) => None,
        Value::Borrowed { .. }
        | Value::Returned(_, _)
        | Value::Done(_)
        | Value::Assigned(_)
        | Value::Designator => None,
    }
}

// The same of an operand whose type may be missing.
fn value_in(value: &Option<Value>) -> Option<i128>
    ensures { result ≡ option_and_then constant_value
        (option_and_then values.number_in (option_map value_of value.now)) }
{
    match value {
        Some(value) => value_of_operand(value),
        None => None,
    }
}

/// The value of an integer constant expression. Takes no memory.
pub fn constant_found(found: &Found) -> Option<i128>
    ensures { (s : scopes.Scope) → result ≡ constants.constant_found (found_of found.now s) }
{
    if found.constant {
        value_in(&found.value)
    } else {
        None
    }
}

/// Whether it is an integer constant expression of value 0. Takes no memory.
pub fn is_zero_found(found: &Found) -> bool
    ensures { (s : scopes.Scope) → result ≡ initializers.is_zero (Some (found_of found.now s)) }
{
    is_zero_constant(constant_found(found))
}

// Whether the number of an operand is known to have no value.
#[tactic(auto, using(crate::proofs::Constants::stored_traps))]
fn number_traps(value: &Value) -> bool
    ensures { result ≡ constants.traps (values.number_in (value_of value.now)) }
{
    match value {
        Value::Number(number) => constant_value(number).is_none(),
        Value::Stored(_, _)
        | Value::Borrowed { .. }
        | Value::Returned(_, _)
        | Value::Done(_)
        | Value::Assigned(_)
        | Value::Designator => value.is_integer(),
    }
}

// The same of an operand whose type may be missing.
fn traps(value: &Option<Value>) -> bool
    ensures { result ≡ constants.traps
        (option_and_then values.number_in (option_map value_of value.now)) }
{
    match value {
        Some(value) => number_traps(value),
        None => false,
    }
}

/// The fault of an expression that starts here and has to be an integer constant expression: it is
/// built as none, or its value traps. Takes no memory.
pub fn fault_of_constant(at: u32, found: &Found) -> Option<Fault>
    ensures { (s : scopes.Scope) → result ≡ least_of
        (constants.constant_faults at found.now.constant
        (values.number_found (found_of found.now s))) }
{
    let trapped = traps(&found.value);
    fault_where(!found.constant || trapped, FaultKind::NotConstant, at)
}

/// Whether it is the constant 0.
pub fn is_zero_constant(value: Option<i128>) -> bool
    ensures { result ≡ constants.is_zero_constant value }
{
    match value {
        Some(value) => is_zero(value),
        None => false,
    }
}
