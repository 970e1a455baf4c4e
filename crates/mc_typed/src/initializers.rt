//! Initial values of objects with automatic storage duration (C17 6.7.9).
use crate::expressions::{Expression, Structure};

/// An initializer, with the number of cells that it sets where this is not one.
pub enum Initializer {
    /// An integer, converted to the type of the object.
    Number { value: Expression },
    /// A structure.
    Structure { value: Structure, cells: u32 },
    /// One item for each of the first elements or members. The rest of the object becomes 0.
    List { items: Vec<Initializer>, cells: u32 },
    /// The list `{E}`, where E is an integer constant expression of value 0: the whole object
    /// becomes 0.
    Zero { value: Expression, cells: u32 },
}

// Not derived: a derived one would be proved again in each crate that lets such a tree go.
impl Drop for Initializer {
    fn drop(self) {
        match self {
            Initializer::Number { value: _ }
            | Initializer::Structure { value: _, cells: _ }
            | Initializer::List { items: _, cells: _ }
            | Initializer::Zero { value: _, cells: _ } => {}
        }
    }
}
