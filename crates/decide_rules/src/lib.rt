//! What the decisions of a typed program are, as definitions, with what follows from them.
#![tactic(auto)]

mod boolean;
mod decision;
mod fault;
mod laws;
mod operators;
mod role;

pub use boolean::{full_operator, is_boolean};
pub use decision::Decision;
pub use fault::DecideFault;
pub use laws::{one_list, starts_are_in_order};
pub use mc_cond::CondTree;
pub use mc_typed::Span;
pub use operators::{FullOperator, Junction};
pub use role::Role;
