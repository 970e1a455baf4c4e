//! Instrumented programs: trees with probes, what they mean, and the map of their bits.
#![tactic(auto)]

mod bit_map;
mod laws;
mod mapped;
mod tree;

pub use bit_map::BitMap;
pub use laws::{
    bare_trees_are_programs, events_are_listed, maps_are_kept, same_trees_are_equal,
    trees_erase_to_programs,
};
pub use mapped::MappedDecision;
pub use tree::Instrumented;
