//! An instrumented text as pieces: tokens of the source, and what its probes insert.
#![tactic(auto)]

mod bracket;
mod fault;
mod here;
pub mod laws;
mod piece;
mod placed;
mod rows;
mod shapes;
mod site;
mod split;
mod without;
mod word;

pub use bracket::Bracket;
pub use fault::ShapeFault;
pub use piece::{Piece, What};
pub use placed::Placed;
pub use split::pieces;
pub use without::{Stand, end_of, plain, stand_of};
