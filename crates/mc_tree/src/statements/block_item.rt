//! What stands in a block.
use crate::declarations::declaration::Declaration;
use crate::statements::statement::Statement;

/// A local declaration or a statement (C17 6.8.2).
#[cycle(statements)]
pub enum BlockItem<'a> {
    Local { declaration: Declaration<'a> },
    Statement { statement: Box<Statement<'a>> },
}

// Not derived: a derived one would be proved again in each crate that lets such a tree go.
impl Drop for BlockItem<'_> {
    #[cycle(statements)]
    fn drop(self) {
        match self {
            BlockItem::Local { declaration: _ } | BlockItem::Statement { statement: _ } => {}
        }
    }
}
