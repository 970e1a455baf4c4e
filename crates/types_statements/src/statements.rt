//! Nodes of statements (C17 6.8).
pub(crate) mod blocks;
pub(crate) mod clauses;
pub(crate) mod effects;
pub(crate) mod entered;
pub(crate) mod lists;
pub(crate) mod loops;
pub(crate) mod selections;
