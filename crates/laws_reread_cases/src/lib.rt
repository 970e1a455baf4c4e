//! What definitions and laws of texts that are read again say of single cases. There is no code in
//! it, but laws.
#![tactic(auto)]

mod faults;
mod pieces;
mod probes;

pub use faults::faults_of_syntax_are_inside;
pub use pieces::{factor_is_grouped, hit_between_statements};
pub use probes::{
    colon_of_a_choice, for_counts_no_declaration, operand_of_a_decision, two_in_braces,
};
