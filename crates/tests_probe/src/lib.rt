//! Worked runs of instrumented programs. The functions do nothing: each has a law as its contract.
#![tactic(auto)]

mod formed;
mod places;
mod probes;
mod worked;

pub use formed::{entry_stands, probes_fit, tree_of_the_table};
pub use places::probes_have_places;
pub use probes::{
    activations_have_registers, bits_by_hand, conditions_have_their_type, full_operators_by_hand,
    map_by_hand, other_bits_are_not_hit, short_tree_by_hand, sums_wrap, tree_by_hand,
};
pub use worked::{
    decisions_anywhere, flap_controller, rules_of_completing, rules_of_endings,
    rules_of_full_operators, rules_of_initializers, rules_of_operators, rules_of_order,
    rules_of_statements, rules_of_values, traps_and_endings,
};
