//! The typed program: the tree of an accepted source with each name resolved and each conversion
//! written.
#![tactic(auto)]

mod constants;
mod effects;
mod expressions;
mod frames;
mod functions;
mod heights;
mod initializers;
mod laws;
mod objects;
mod operators;
mod plans;
mod probes;
mod programs;
mod statements;

pub use constants::{
    binary_value, choice_value, constant_value, converted_value, logic_value, negated_value,
    unary_value,
};
pub use effects::Effect;
pub use expressions::{Argument, Expression, FunctionCall, Place, Slot, Structure};
pub use frames::{frame, frame_cells};
pub use functions::{Function, ParameterType, ResultType};
pub use heights::{levels, levels_of_body};
pub use initializers::Initializer;
pub use laws::{
    cells_have_types, constants_are_values, levels_of_each_construct, members_can_be_added,
    parts_lie_within, paths_lead_on, recursion, recursion_with_array, scalars_are_apart,
    structure_argument,
};
pub use mc_span::Span;
pub use objects::{Object, StaticObject, share};
pub use operators::{LogicOperator, Operator};
pub use plans::{Call, Ending, Inputs, Name, TestPlan, TestState};
pub use probes::{Mark, Probe};
pub use programs::{Program, object_type};
pub use statements::{Declarator, ForStart, ReturnValue, Statement};
