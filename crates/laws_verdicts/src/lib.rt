//! Laws on the obligations of a report and on its counts. There is no code in it, but laws.
#![tactic(auto)]

mod laws;

pub use laws::{
    counts_add_up, failures_are_told, kinds_add_up, last_failure_is_told, names_are_apart,
    one_event_is_no_pair, status_is_counted,
};
