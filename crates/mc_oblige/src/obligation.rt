//! Obligations: what coverage asks for.
ghost use Rattle.std.specs.Prelude.{◌≡◌};
ghost use Rattle.mc_oblige.specs.Texts.{text_at};

use mc_span::Span;

/// Which obligation it is. Functions, exits, counted statements, labels and decisions have each
/// their numbers from 0, in the order of the text, and so have the conditions of a decision.
#[derive(Clone, Copy, Debug, PartialEq, Eq)]
pub enum ObligationId {
    /// The function is entered.
    Entry(u32),
    /// The `return` or the closing brace is reached.
    Exit(u32),
    /// The statement is started.
    Statement(u32),
    /// The `switch` chooses the label.
    Label(u32),
    /// The decision has this outcome.
    Outcome(u32, bool),
    /// The condition independently affects the outcome of the decision: first the decision's
    /// number, then the condition's.
    Condition(u32, u32),
}

/// An obligation, and where it stands in the source.
#[derive(Clone, Copy, Debug, PartialEq, Eq)]
pub struct Obligation {
    pub id: ObligationId,
    pub span: Span,
}

impl Obligation {
    /// What stands in the source where the obligation does. What passes the source's end is cut
    /// there. Takes no memory.
    pub fn text<'a>(&self, source: &'a [u8]) -> &'a [u8]
        ensures { result.now ≡ text_at self.now.span source.now }
    {
        let end = (self.span.end as usize).min(source.len());
        let front = &source[..end];
        let start = (self.span.start as usize).min(front.len());
        &front[start..]
    }
}
