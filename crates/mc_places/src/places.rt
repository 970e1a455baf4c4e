//! The places of a text.
ghost use Rattle.std.specs.Prelude.{◌≡◌, ◌++◌, ◌∷◌, [], ◌<◌, ◌^◌, length, option_map, IfOk, OnOk, string_bytes, codes};
ghost use Rattle.std.specs.List.{concat};
ghost use Rattle.std.specs.Fmt.{decimal};
ghost use Rattle.mc_lex.specs.Lines.{line_of, column_of};
ghost use Rattle.mc_places.specs.Origins.{is_named, is_of, names_file, has_name, origin_at, origins, stands_in};
ghost use Rattle.mc_places.specs.Places.{here_text, place_text, place_with};
ghost use Rattle.mc_places.specs.Seen.{marker_seen, name_of, origin_of, origins_of};
ghost use Rattle.mc_places.specs.steps.Starts.{AreStarts};
ghost use Rattle.mc_places.specs.steps.Kept.{AreStarts-prop, AreOrigins, AreOrigins-prop};

use crate::marker::Marker;
use crate::markers::Markers;
use crate::name::is_name;
use crate::origin::{Origin, next_origin};
use crate::starts::{line_starts, place_at};
use mc_lex::Place;
use std::alloc::{AllocError, Global};

/// Where each byte of a text stands: its line and column there, and the file and line from which
/// its line comes, by the line markers. It is made in one pass over the text, and a place is found
/// by halving.
#[derive(Drop)]
pub struct Places<'a> {
    text: &'a [u8],
    starts: Vec<u32>,
    origins: Vec<Option<Origin<'a>>>,
    ghost short: { length text.now < 2 ^ 31 },
    ghost found_starts: { AreStarts text.now (length text.now) starts.items } by { AreStarts-prop text.now (length text.now) starts.items },
    ghost found_origins: { AreOrigins text.now origins.items } by { AreOrigins-prop text.now origins.items },
}

/// The file and line of each line of the text.
fn origins_of_lines<'a>(
    alloc: Global,
    text: &'a [u8],
) -> Result<Vec<Option<Origin<'a>>>, AllocError>
    ensures { IfOk result (λ found. AreOrigins text.now found.items) }
{
    let mut found = Vec::new(alloc);
    let mut now = None;
    let mut markers = Markers::of(text);
    while let Some(marker) = markers.next() {
        found.push(now)?;
        now = next_origin(now, marker);
    }
    Ok(found)
}

/// The line and the column in the text.
fn here_text(alloc: Global, place: Place) -> Result<String, AllocError>
    ensures { IfOk result (λ text. string_bytes text ≡ here_text place.line place.column) }
{
    let line = place.line;
    let column = place.column;
    format!(in alloc; "{line}:{column}")
}

/// Adds the file and line, and then the place in the text.
fn push_origin(
    alloc: Global,
    line: &mut Vec<u8>,
    origin: Origin<'_>,
    here: &str,
) -> Result<(), AllocError>
    ensures { OnOk result (line.new.items ≡ line.old.items
        ++ concat ((origin_of origin.entry).file ∷ codes ":" ∷ decimal origin.entry.line ∷ codes " (" ∷ here.now
        ∷ codes ")" ∷ [])) }
{
    let number = origin.line;
    let rest = format!(in alloc; ":{number} ({here})")?;
    origin.push_file(line)?;
    line.extend_from_slice(rest.as_bytes())
}

/// Whether the marker names the file.
fn names_file(marker: Option<Marker<'_>>, name: &[u8]) -> bool
    ensures { result ≡ names_file name.now (option_map marker_seen marker.entry) }
{
    match marker {
        Some(marker) => has_name(marker.name, name),
        None => false,
    }
}

fn has_name(written: Option<&[u8]>, name: &[u8]) -> bool
    ensures { result ≡ has_name name.now (name_of written.entry) }
{
    match written {
        Some(written) => is_name(written, name),
        None => false,
    }
}

/// Adds a place with its file and line, where they are known.
fn push_with(
    alloc: Global,
    line: &mut Vec<u8>,
    origin: Option<Origin<'_>>,
    place: Place,
) -> Result<(), AllocError>
    ensures { OnOk result (line.new.items ≡ line.old.items
        ++ place_with (option_map origin_of origin.entry) place.line place.column) }
{
    let here = here_text(alloc, place)?;
    match origin {
        Some(origin) => push_origin(alloc, line, origin, here.as_str()),
        None => line.extend_from_slice(here.as_bytes()),
    }
}

impl<'a> Places<'a> {
    /// Finds the places of a text.
    pub fn of(alloc: Global, text: &'a [u8]) -> Result<Places<'a>, AllocError>
        requires { length text.now < 2 ^ 31 }
        ensures { IfOk result (λ places. places.text.now ≡ text.now) }
    {
        let starts = line_starts(alloc, text)?;
        let origins = origins_of_lines(alloc, text)?;
        Ok(Places {
            text,
            starts,
            origins,
        })
    }

    /// The text.
    pub fn text(&self) -> &'a [u8]
        ensures { result.now ≡ self.now.text.now }
    {
        self.text
    }

    /// The line and column of the byte at an offset, or of the text's end where the offset is
    /// greater. Takes no memory.
    pub fn place(&self, at: u32) -> Place
        ensures line { result.line ≡ line_of self.now.text.now at }
        ensures column { result.column ≡ column_of self.now.text.now at }
    {
        place_at(self.text, &self.starts, at)
    }

    /// The file and line of the byte at an offset, where a marker says them. Takes no memory.
    pub fn origin(&self, at: u32) -> Option<Origin<'a>>
        ensures { option_map origin_of result ≡ origin_at self.now.text.now at }
    {
        let line = self.place(at).line as usize;
        match self.origins.get(line - 1) {
            Some(origin) => *origin,
            None => None,
        }
    }

    /// Whether the byte at an offset stands in the file of this name. Takes no memory.
    pub fn stands_in(&self, name: &[u8], at: u32) -> bool
        ensures { result ≡ stands_in self.now.text.now name.now at }
    {
        match self.origin(at) {
            Some(origin) => origin.is_of(name),
            None => false,
        }
    }

    /// Whether some marker names the file. Takes no memory.
    pub fn names(&self, name: &[u8]) -> bool
        ensures { result ≡ is_named self.now.text.now name.now }
    {
        let mut markers = Markers::of(self.text);
        while let Some(marker) = markers.next() {
            if names_file(marker, name) {
                return true;
            }
        }
        false
    }

    /// Adds the place of the byte at an offset: `modes.c:12 (1042:7)`, the second one that in the
    /// text, or that alone where no marker says a file and line.
    pub fn push_place(&self, alloc: Global, line: &mut Vec<u8>, at: u32) -> Result<(), AllocError>
        ensures { OnOk result (line.new.items
            ≡ line.old.items ++ place_text self.now.text.now at) }
    {
        push_with(alloc, line, self.origin(at), self.place(at))
    }
}
