//! Copies of a program and its parts, with their probes.

pub(crate) mod counters;
pub(crate) mod effects;
pub(crate) mod expressions;
pub(crate) mod functions;
pub(crate) mod initializers;
pub(crate) mod statements;
pub(crate) mod walk;
