//! Path numbers of decisions: one for each vector, in the order of vectors.
#![tactic(auto)]

mod descent;
mod fault;
mod laws;
mod masks;
mod numbering;
mod rooms;
mod simple;
pub mod worked;

pub use fault::NumberFault;
pub use laws::{
    count_of_graph, increment_of_graph, number_below, number_counts, number_once, number_order,
    number_taken, vector_along_graph,
};
pub use numbering::{Numbering, number};
