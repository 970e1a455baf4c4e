//! What a test can call, and with what.
ghost use Rattle.std.specs.Prelude.{◌≡◌, map};
ghost use Rattle.mc_value.specs.IntTypes.{in_range};
ghost use Rattle.mc_typed.specs.Views.{function_of, parameter_of, result_of};
ghost use Rattle.plan_fields.specs.Calls.{are_values, gives_structure, integer_types, is_callable, may_expect, takes_integers};

use mc_typed::{Function, ParameterType, ResultType};
use mc_value::{IntType, range};

fn is_value(of: IntType, value: i128) -> bool
    ensures { result ≡ in_range of value }
{
    let (least, greatest) = range(of);
    least <= value && value <= greatest
}

/// Whether there are as many arguments as integer parameters, each in the range of its type. Takes
/// no memory.
pub fn are_values(arguments: &[i128], parameters: &[ParameterType]) -> bool
    ensures { result ≡ are_values arguments.now (integer_types (map parameter_of parameters.now)) }
{
    let mut values = arguments;
    let mut left = parameters;
    while let [parameter, later @ ..] = left {
        if let ParameterType::Int(of) = parameter {
            let [value, others @ ..] = values else {
                return false;
            };
            if !is_value(*of, *value) {
                return false;
            }
            values = others;
        }
        left = later;
    }
    values.is_empty()
}

/// Whether a value can be expected of a function with this result; none may be expected of a void
/// function. Takes no memory.
pub fn may_expect(expect: Option<i128>, returned: &ResultType) -> bool
    ensures { result ≡ may_expect expect (result_of returned.now) }
{
    match returned {
        ResultType::Void => expect.is_none(),
        ResultType::Int(_) | ResultType::Structure(_) => true,
    }
}

fn takes_integers(parameters: &[ParameterType]) -> bool
    ensures { result ≡ takes_integers (map parameter_of parameters.now) }
{
    let mut left = parameters;
    while let [parameter, later @ ..] = left {
        match parameter {
            ParameterType::Int(_) => left = later,
            ParameterType::Structure(_) | ParameterType::Array(_) => return false,
        }
    }
    true
}

fn gives_structure(returned: &ResultType) -> bool
    ensures { result ≡ gives_structure (result_of returned.now) }
{
    match returned {
        ResultType::Void | ResultType::Int(_) => false,
        ResultType::Structure(_) => true,
    }
}

/// Whether a test can call the function: its parameters are integers alone, and it returns no
/// structure. Takes no memory.
pub fn is_callable(function: &Function<'_>) -> bool
    ensures { result ≡ is_callable (function_of function.now) }
{
    takes_integers(&function.parameters) && !gives_structure(&function.result)
}
