//! That the run of an instrumented program is that of the program, as laws.
#![tactic(auto)]

mod laws;

pub use laws::{
    bare_programs_run_as_plain, instrumented_programs_erase, instrumented_programs_run_as_plain,
    stores_are_kept,
};
