//! The decisions of a typed program: every Boolean expression, wherever it stands.
#![tactic(auto)]

mod find;
mod roots;

pub use decide_rules::{
    CondTree, DecideFault, Decision, Role, Span, one_list, starts_are_in_order,
};
pub use find::{decisions, decisions_of};
