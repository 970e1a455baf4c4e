//! How a report is asked for: what shows the independence of a condition, and the form in which a
//! report is written. The words of the command line name them, and verdicts and texts follow them.
#![tactic(auto)]

mod form;
mod mode;

pub use form::Form;
pub use mode::Mode;
