//! Nodes of several parts, where memory may have run out at the last one: the parts before it are
//! let go here. The walk itself has no exit at which it owns a part, which keeps its proof short.
//!
//! Most of these stay calls (`inline(never)`), as some parts of the walk do: a function clears all
//! its values as it begins, those of what is inlined in it too, and the walk would clear those of
//! each kind of node at every node.
pub(crate) mod declarators;
pub(crate) mod expressions;
pub(crate) mod statements;
