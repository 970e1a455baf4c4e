//! Decisions (DO-178C, glossary).
use mc_cond::CondTree;
use mc_typed::Span;

/// A decision of a program.
pub struct Decision {
    /// Where its root stands, without parentheses round the whole.
    pub root: Span,
    /// The number of the function in whose body it stands.
    pub function: u32,
    /// Its tree, whose conditions are numbered from 0 on in the order of the text. There are at
    /// most 64.
    pub tree: CondTree,
    /// Where each condition stands.
    pub conditions: Vec<Span>,
}

// Not derived: a derived one would be proved again in each crate that lets a decision go.
impl Drop for Decision {
    fn drop(self) {
        let Self {
            root: _,
            function: _,
            tree: _,
            conditions: _,
        } = self;
    }
}
