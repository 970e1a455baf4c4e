//! What is said of a node that is outside.
ghost use Rattle.std.specs.Prelude.{◌≡◌};
ghost use Rattle.subset_forms.specs.Order.{or_else};

use crate::form::Form;
use mc_span::Span;

/// A node outside: its form, and the place that stands for it. That of an empty parameter list is
/// its `)`.
#[derive(Clone, Copy, Debug, PartialEq, Eq)]
pub struct Outside {
    pub form: Form,
    pub span: Span,
}

/// The first of two nodes outside, where there is one: `later` comes after `first`.
pub fn first_of(first: Option<Outside>, later: Option<Outside>) -> Option<Outside>
    ensures { result ≡ or_else first later }
{
    if first.is_some() { first } else { later }
}
