//! Places in a source, and parts of it.
ghost use Rattle.std.specs.Prelude.{◌≡◌, ◌<◌, ◌≤◌, ◌^◌, length};
ghost use Rattle.std.specs.List.{slice_range};
ghost use Rattle.mc_lex.specs.Lines.{line_of, column_of};

use mc_span::Span;

/// A place in a source as a reader counts it: lines from 1, each of which ends after LF,
/// and bytes of the line from 1.
#[derive(Clone, Copy, Debug, PartialEq, Eq)]
pub struct Place {
    pub line: u32,
    pub column: u32,
}

/// The place of the byte at offset `at`, or of the source's end.
pub fn place_of(source: &[u8], at: u32) -> Place
    requires short { length source.now < 2 ^ 31 }
    requires within { at ≤ length source.now }
    ensures line { result.line ≡ line_of source.now at }
    ensures column { result.column ≡ column_of source.now at }
{
    let mut place = Place { line: 1, column: 1 };
    for byte in &source[..at as usize] {
        if *byte == b'\n' {
            place = Place {
                line: place.line + 1,
                column: 1,
            };
        } else {
            place.column += 1;
        }
    }
    place
}

/// The bytes of the source at a span.
pub fn quote<'a>(source: &'a [u8], span: Span) -> &'a [u8]
    requires forward { span.start ≤ span.end }
    requires within { span.end ≤ length source.now }
    ensures { result.now ≡ slice_range source.now span.start span.end }
{
    &source[span.start as usize..span.end as usize]
}
