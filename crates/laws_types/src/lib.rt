//! Laws on names and types: what the typed program has of the text, by tables from the C standard.
//! There is no code in it, but laws.
#![tactic(auto)]

mod laws;
mod silence;

pub use laws::{
    assigned_is_converted, assignments_are_kept, constant_expressions_are_told,
    constants_have_their_types, decisions_stand_in_the_source, declarations_make_objects,
    expressions_have_levels, labels_are_promoted, names_are_resolved, one_is_promoted,
    operands_are_converted, operators_are_kept, programs_have_their_source,
    programs_stand_in_their_text, statements_are_kept, statements_have_levels, units_are_exact,
    whole_effects_use_no_value, words_have_their_types,
};
pub use silence::{missing_is_spared, values_have_no_fault};
