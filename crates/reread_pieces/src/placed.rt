//! Probes at what they stand at.

use crate::piece::What;
use mc_span::Span;

/// A probe of an instrumented text: what it is, the byte at which its word starts, and the place of
/// that at which it stands.
///
/// That is the counted statement, the counted declaration, or the expression round which the probe
/// stands, each without the brackets of probes; the label through its colon; for an absent
/// `default` the `switch`; for the exit of a `return` its statement; and the name of the function
/// for what belongs to a whole function.
#[derive(Clone, Copy, Debug, PartialEq, Eq)]
pub struct Placed {
    pub what: What,
    pub word: u32,
    pub span: Span,
}
