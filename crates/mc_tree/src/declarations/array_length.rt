//! Lengths of arrays.
use crate::expressions::expression::Expression;

/// A pair of brackets after a declared name, with or without a length (C17 6.7.6.2).
#[cycle(syntax)]
pub enum ArrayLength<'a> {
    Absent,
    Given { value: Box<Expression<'a>> },
}

// Not derived: a derived one would be proved again in each crate that lets such a tree go.
impl Drop for ArrayLength<'_> {
    #[cycle(syntax)]
    fn drop(self) {
        match self {
            ArrayLength::Absent | ArrayLength::Given { value: _ } => {}
        }
    }
}
