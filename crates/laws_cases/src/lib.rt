//! What definitions and laws of other crates say of single cases. There is no code in it, but laws.
#![tactic(auto)]

mod decisions;
mod generated;
mod grammar;
mod names;
mod skipped;
mod stores;
mod tests_files;
mod type_tables;
mod type_trees;
mod types;
mod vectors;

pub use decisions::large_is_at_its_root;
pub use generated::source_of_four;
pub use grammar::{qualifier_is_no_type, sections_have_an_end};
pub use names::{each_text_is_told, texts_on_names};
pub use skipped::skipped_show_nothing;
pub use stores::activations_are_unset;
pub use tests_files::fields_are_told;
pub use type_tables::{tables_are_told, wrong_rows_are_none};
pub use type_trees::{each_unit_has_places, expressions_are_read};
pub use types::{
    conversion_is_implied, names_have_no_fault, roots_stand_in_the_body, tables_are_whole,
};
pub use vectors::{full_operators_have_numbers, ranks_rise};
