//! The first part of a `for`.
use crate::declarations::declaration::Declaration;
use crate::expressions::expression::Expression;

/// What stands before the first `;` of a `for` (C17 6.8.5.3).
pub enum ForStart<'a> {
    Local { declaration: Declaration<'a> },
    Expression { value: Option<Box<Expression<'a>>> },
}

// Not derived: a derived one would be proved again in each crate that lets such a tree go.
impl Drop for ForStart<'_> {
    fn drop(self) {
        match self {
            ForStart::Local { declaration: _ } | ForStart::Expression { value: _ } => {}
        }
    }
}
