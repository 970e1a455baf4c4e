//! Which tests a suite can do without, and what each of the others is kept for.
#![tactic(auto)]

mod columns;
mod counts;
mod hint;
mod judged;
mod kept;
mod laws;
mod loss;
mod pairs;
mod paths;
mod reduced;
mod shown;

pub use kept::reduce;
pub use laws::{
    kept_ascend, kept_show_the_same, more_show_more, reduced_alike, reduced_is_one,
    shown_is_evidence,
};
pub use reduced::Reduced;
