//! The pieces of a preprocessed text of C with extensions: tokens, and what stands between them.
#![tactic(auto)]

mod byte;
mod comment;
mod directive;
mod kind;
pub mod laws;
mod literal;
mod next;
mod number;
mod piece;
mod pieces;
mod symbol;

pub use kind::Kind;
pub use piece::Piece;
pub use pieces::cut;
