//! Nodes of initializers (C17 6.7.9).
pub(crate) mod items;
pub(crate) mod lists;
pub(crate) mod parts;
pub(crate) mod singles;
pub(crate) mod target;
