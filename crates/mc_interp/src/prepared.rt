//! Bodies as the interpreter runs them, made once from the tree. Two kinds of parts stand in a form
//! that needs no walk of the tree: decisions on objects of the activation and constants, and
//! assignments of such an object or a constant to an object of the activation. All else is lent
//! from the tree. `Views` says which tree each prepared part is.
mod controls;
mod leaves;
mod questions;
mod statements;
mod steps;

pub(crate) use controls::Test;
pub(crate) use leaves::Leaf;
pub(crate) use questions::{Note, Question, Relation};
pub(crate) use statements::{Prepared, prepare_all};
pub(crate) use steps::Step;
