//! What the lines show of a source.
ghost use Rattle.std.specs.Prelude.{◌≡◌, ◌++◌, slice_get, OnOk};
ghost use Rattle.results_lines.specs.Seen.{source_of};
ghost use Rattle.results_lines.specs.Sources.{name_of, place_at, text_at};

use mc_places::Places;
use mc_probe::BitMap;
use mc_span::Span;
use source_excerpt::bytes_at;
use std::alloc::{AllocError, Global};

/// The places of a source, and where its functions, exits and counted statements are.
#[derive(Clone, Copy)]
pub(crate) struct Source<'a> {
    pub(crate) places: &'a Places<'a>,
    pub(crate) map: &'a BitMap,
}

/// The place with this number.
pub(crate) fn span_at(spans: &[Span], number: u32) -> Option<Span>
    ensures { result ≡ slice_get spans.now number }
{
    match spans.get(number as usize) {
        Some(span) => Some(*span),
        None => None,
    }
}

impl Source<'_> {
    fn text_at(&self, span: Option<Span>) -> &[u8]
        ensures { result.now ≡ text_at (source_of self.now) span }
    {
        match span {
            Some(span) => bytes_at(self.places.text(), span),
            None => b"",
        }
    }

    /// The name of the function with this number.
    pub(crate) fn name_of(&self, function: u32) -> &[u8]
        ensures { result.now ≡ name_of (source_of self.now) function }
    {
        self.text_at(span_at(&self.map.entries, function))
    }

    /// Adds the place of the first byte.
    pub(crate) fn push_place(
        &self,
        alloc: Global,
        line: &mut Vec<u8>,
        span: Option<Span>,
    ) -> Result<(), AllocError>
        ensures { OnOk result (line.new.items
            ≡ line.old.items ++ place_at (source_of self.now) span) }
    {
        match span {
            Some(span) => self.places.push_place(alloc, line, span.start),
            None => Ok(()),
        }
    }
}
