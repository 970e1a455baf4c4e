//! What is found of a node.
ghost use Rattle.std.specs.Prelude.{◌≡◌, option_map, option_and_then, false};
ghost use Rattle.mc_typed.specs.Views.{expression_of};
ghost use Rattle.types_rules.specs.Values as values;
ghost use Rattle.types_scopes.specs.Found.{kind_of, value_of};

use crate::kind::Kind;
use crate::value::Value;
use mc_typed::Expression;
use types_faults::Fault;

/// What is found of an expression: its first fault, its value where it has a type, whether it
/// designates an object, and whether it is built as an integer constant expression (C17 6.6p6).
#[derive(Drop)]
pub struct Found {
    pub fault: Option<Fault>,
    pub value: Option<Value>,
    pub place: bool,
    pub constant: bool,
}

/// What is found of another node: its first fault, and what it stands for where that can be told.
#[derive(Drop)]
pub struct Judged<A> {
    pub fault: Option<Fault>,
    pub value: Option<A>,
}

/// What is found of arguments: its first fault, what they stand for where that can be told, and how
/// many cells the copies of their structures have.
#[derive(Drop)]
pub struct Given<A> {
    pub fault: Option<Fault>,
    pub value: Option<A>,
    pub copied: u64,
}

/// Whether an operand is known to be no integer.
pub fn fails_integer(value: &Option<Value>) -> bool
    ensures { result ≡ values.fails values.is_integer
        (option_map values.kind_of (option_map value_of value.now)) }
{
    match value {
        Some(value) => !value.is_integer(),
        None => false,
    }
}

/// The kind of an expression, where it has a type.
pub fn kind_found(value: &Option<Value>) -> Option<Kind<'_>>
    ensures { option_map kind_of result
        ≡ option_map values.kind_of (option_map value_of value.now) }
{
    match value {
        Some(value) => Some(value.kind()),
        None => None,
    }
}

/// The number of an operand that has an integer type.
pub fn number_in(value: Option<Value>) -> Option<Expression>
    ensures { option_map expression_of result
        ≡ option_and_then values.number_in (option_map value_of value) }
{
    match value {
        Some(value) => value.into_number(),
        None => None,
    }
}

/// What is found of an operator that gives a number.
pub fn number_found(fault: Option<Fault>, number: Option<Expression>, constant: bool) -> Found
    ensures fault { result.fault ≡ fault }
    ensures value { option_map value_of result.value
        ≡ option_map values.Number (option_map expression_of number) }
    ensures place { result.place ≡ false }
    ensures constant { result.constant ≡ constant }
{
    let value = match number {
        Some(number) => Some(Value::Number(number)),
        None => None,
    };
    Found {
        fault,
        value,
        place: false,
        constant,
    }
}
