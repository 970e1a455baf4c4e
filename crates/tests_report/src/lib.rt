//! Tests of `mc_report`.
#![tactic(auto)]

#[cfg(test)]
mod forms;
mod laws;
#[cfg(test)]
mod make;
#[cfg(test)]
mod rows;

pub use laws::{
    all_met, all_met_in_forms, escaped, exits_of_loops, exits_of_plain_bodies, exits_of_switches,
    failed, fields, flap_controller, ids, labels_in_order, limits, negated, none_run, not_all_met,
    reasons, reasons_in_forms, settled, statements_that_count, states, test_lines, tests_as_json,
    two_ands, two_functions, two_ors, vectors,
};
