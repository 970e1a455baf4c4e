//! Laws on what missing obligations need. There is no code in it, but laws.
#![tactic(auto)]

mod laws;

pub use laws::{
    needed_vectors_are_enough, one_vector_gives_its_pair, wanted_vectors_are_enough,
    wanted_vectors_are_needed,
};
