//! Places of parts of a tree.
ghost use Rattle.std.specs.Prelude.{◌≡◌};
ghost use Rattle.mc_grammar.specs.Places as places;

use mc_span::Span;

/// From the start of one place to the end of another.
pub fn to(first: Span, last: Span) -> Span
    ensures { result ≡ places.to first last }
{
    Span {
        start: first.start,
        end: last.end,
    }
}
