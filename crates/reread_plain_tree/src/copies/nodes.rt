//! Makers of nodes on the heap, one for each kind: a node is costly to prove where it is made in a
//! branch.
pub mod expressions;
pub mod statements;
