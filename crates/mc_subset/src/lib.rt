//! The first node of a tree that the profile leaves out.
#![tactic(auto)]

mod declarations;
mod expressions;
mod rows;
mod statements;
mod units;
pub mod worked;

pub use subset_forms::{Form, Outside};
pub use units::check;
