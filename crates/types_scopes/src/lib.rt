//! Names in scope, types and objects: what the walk over a tree keeps as it gives a typed program.
#![tactic(auto)]

pub mod around;
pub mod bare;
mod blocks;
mod bodies;
pub mod conversions;
pub mod count;
pub mod effects;
pub mod found;
pub mod initial;
pub mod joined;
pub mod kind;
mod labels;
mod laws;
mod layouts;
pub mod leaves;
pub mod lists;
mod meanings;
mod member;
mod members;
pub mod parts;
mod prototypes;
mod scope;
pub mod structures;
pub mod sums;
mod types;
pub mod value;
pub mod values;

pub use blocks::Block;
pub use bodies::Bodies;
pub use labels::Labels;
pub use laws::blocks_end_as_defined;
pub use layouts::{
    cells, counted_nesting, is_complete, is_faulty, is_large_member, is_passed_with, is_too_large,
    layout, structure_types,
};
pub use meanings::{Meaning, TagMeaning};
pub use member::Member;
pub use members::{Complete, Members, Structure};
pub use prototypes::{Objects, Prototype};
pub use scope::Scope;
pub use types::{Base, CType, ParameterKind, Signature, same_base, same_lengths};
