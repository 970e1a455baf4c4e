//! The rules of expressions, specifiers and declarators, each over what reads its parts.

mod binary;
mod declarators;
pub mod makers;
mod members;
mod operators;
pub mod parts;
mod postfix;
mod primary;
mod rules;
mod specifiers;
mod unary;

use std::alloc::Global;

/// The rules, over what reads parts of fewer than `room` levels.
#[derive(Drop)]
pub struct Grammar<P> {
    pub alloc: Global,
    pub room: u32,
    pub parts: P,
}
