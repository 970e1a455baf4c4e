//! What is found at each node of a statement (C17 6.8) and of an initializer (C17 6.7.9).
#![tactic(auto)]

mod initializers;
mod statements;
mod values;

pub use initializers::items::{more_items, no_items};
pub use initializers::lists::{braced_expression, list_initializer};
pub use initializers::parts::{PartTypes, parts};
pub use initializers::singles::single_initializer;
pub use statements::blocks::{
    compound_statement, declaration_statement, effect_statement, goto_statement, named_label,
    no_statements, null_statement,
};
pub use statements::clauses::{
    clause, more_clauses, more_declarators, no_clauses, no_declarators, no_start, no_test,
};
pub use statements::effects::effect;
pub use statements::entered::{enter_compound, enter_switch};
pub use statements::lists::followed;
pub use statements::loops::{
    declaration_start, do_statement, effects_start, loop_statement, loop_test,
};
pub use statements::selections::{if_else_statement, if_statement, switch_statement};
