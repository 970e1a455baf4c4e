//! What names mean (C17 6.2.3).
use crate::types::{CType, Signature};
use mc_typed::Slot;
use std::sync::Arc;

/// What an ordinary identifier means. A type that could not be made out is absent.
#[derive(Drop)]
pub enum Meaning {
    /// An object with automatic storage duration (C17 6.2.4).
    Automatic {
        slot: Slot,
        of: Option<CType>,
    },
    /// An object with static storage duration.
    Static {
        slot: Slot,
        of: Option<CType>,
    },
    /// An array parameter: the number of the array that it names, and the type of the elements.
    Borrowed {
        array: u32,
        element: CType,
    },
    /// An enumeration constant.
    Constant {
        value: Option<i128>,
    },
    /// A function, and whether its body has been seen.
    Function {
        signature: Option<Arc<Signature>>,
        has_body: bool,
    },
    Typedef {
        of: Option<CType>,
    },
}

/// What a tag means: a structure type by its number, or an enumeration (C17 6.7.2.3).
#[derive(Clone, Copy)]
pub enum TagMeaning {
    Structure(usize),
    Enumeration,
}
