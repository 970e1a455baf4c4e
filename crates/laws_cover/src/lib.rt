//! Laws on the shared words of a cover, for every list of steps that its passes make in any order.
//! There is no code in it, but laws.
#![tactic(auto)]

mod laws;

pub use laws::{
    a_run_has_each_step, steps_are_counted, steps_keep_the_rule, the_rule_is_its_words,
};
