//! Places in a source.
#![tactic(auto)]

mod span;

pub use span::Span;
