//! Worked runs: short typed programs, what happens in their runs, and laws on what is easily got
//! wrong. The functions do nothing: each has a law as its contract.
#![tactic(auto)]

mod worked;

pub use worked::{
    decisions_anywhere, expectations_are_judged, flap_controller, limits_are_in_order,
    output_is_limited, rules_of_completing, rules_of_endings, rules_of_full_operators,
    rules_of_initializers, rules_of_operators, rules_of_order, rules_of_statements,
    rules_of_values, states_of_tests, traps_and_endings,
};
