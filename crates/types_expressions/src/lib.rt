//! What is found at each node of an expression (C17 6.5), from what is found of its parts.
#![tactic(auto)]

mod arguments;
mod arrays;
mod assignments;
mod binary_operators;
mod callee;
mod casts;
mod conditionals;
mod constants;
mod function_calls;
mod gathering;
mod making;
mod names;
mod operands;
mod selections;
mod subscripts;
mod unary_operators;
mod update;

pub use arguments::{add_temporary, argument};
pub use assignments::assignment;
pub use binary_operators::binary;
pub use callee::{Callee, callee_named};
pub use casts::cast;
pub use conditionals::conditional;
pub use constants::{character, constant, type_of_constant};
pub use function_calls::{call, comma};
pub use gathering::{first_of, gather, given_for, none_given, rest_of};
pub use names::name;
pub use selections::member;
pub use subscripts::index;
pub use unary_operators::unary;
pub use update::{postfix_step, prefix_step};
