//! Constants of enumerations.
use crate::expressions::expression::Expression;
use crate::identifier::Identifier;

/// A constant of an enumeration (C17 6.7.2.2).
#[cycle(syntax)]
pub enum Enumerator<'a> {
    Bare {
        name: Identifier<'a>,
    },
    Valued {
        name: Identifier<'a>,
        value: Box<Expression<'a>>,
    },
}

// Not derived: a derived one would be proved again in each crate that lets such a tree go.
impl Drop for Enumerator<'_> {
    #[cycle(syntax)]
    fn drop(self) {
        match self {
            Enumerator::Bare { name: _ } | Enumerator::Valued { name: _, value: _ } => {}
        }
    }
}
