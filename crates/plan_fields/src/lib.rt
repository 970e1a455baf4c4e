//! What the fields of a record of a tests file say, and what a test can call.
#![tactic(auto)]

mod calls;
mod fields;
mod numbers;
pub mod worked;

pub use calls::{are_values, is_callable, may_expect};
pub use fields::{Numbers, has_six_fields, is_header, is_readable, read_all_numbers};
