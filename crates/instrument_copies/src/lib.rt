//! The tree of a program without probes, and such copies of its parts.
#![tactic(auto)]

mod copies;

pub use copies::{
    all_structures, bare, expression, local_objects, parameters, result_type, static_objects,
};
