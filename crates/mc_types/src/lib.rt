//! Names and types: the typed program of a unit, or its first fault.
#![tactic(auto)]

mod declarations;
mod expressions;
mod fault;
mod initializers;
mod leaves;
mod statements;
mod steps;
mod units;
mod unused;

pub use fault::TypeFault;
pub use units::type_unit;
