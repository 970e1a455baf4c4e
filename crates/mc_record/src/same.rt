//! A test that stands in both records.
ghost use Rattle.std.specs.Prelude.{◌≡◌, ◌≤◌, ◌<◌, ◌^◌, ℕ, List, IfOk, OnOk, Some, length, if◌then◌else◌};
ghost use Rattle.std.specs.Str.{bytes_eq};
ghost use Rattle.mc_limits.specs.Limits.{most_tests};
ghost use Rattle.mc_record.specs.Merged.{place_of, same_test};
ghost use Rattle.mc_record.specs.Seen.{place_named};

use mc_typed::Name;
use std::alloc::{AllocError, Global};
use std::collections::BTreeMap;

// Gives a name its place, instead of the one that it had.
fn place<'a>(
    places: &mut BTreeMap<&'a [u8], u32>,
    name: &'a [u8],
    value: u32,
) -> Result<(), AllocError>
    ensures { OnOk result ((q : List ℕ) → place_named places.new q
        ≡ (if bytes_eq name.now q then Some value else place_named places.old q)) }
{
    places.insert(name, value)?;
    Ok(())
}

// The place of each name; of equal names it is that of the first.
fn places_of<'a>(alloc: Global, names: &'a [Name]) -> Result<BTreeMap<&'a [u8], u32>, AllocError>
    requires { length names.now < 2 ^ 31 }
    ensures { IfOk result (λ places. (q : List ℕ) → place_named places q ≡ place_of names.now q) }
{
    let mut places = BTreeMap::new(alloc);
    let mut left = names;
    while let [before @ .., name] = left {
        place(&mut places, name.bytes(), before.len() as u32)?;
        left = before;
    }
    Ok(places)
}

fn find(places: &BTreeMap<&[u8], u32>, name: &[u8]) -> Option<u32>
    ensures { result ≡ place_named places.now name.now }
{
    places.get(name).copied()
}

/// The first of the right names that stands among the left ones: its place on the left, and its
/// place on the right.
pub(crate) fn same_test(
    alloc: Global,
    left: &[Name],
    right: &[Name],
) -> Result<Option<(u32, u32)>, AllocError>
    requires left { length left.now ≤ most_tests }
    requires right { length right.now ≤ most_tests }
    ensures { IfOk result (λ found. found ≡ same_test left.now right.now) }
{
    let places = places_of(alloc, left)?;
    let mut number = 0;
    let mut names_left = right;
    while let [name, later @ ..] = names_left {
        if let Some(place) = find(&places, name.bytes()) {
            return Ok(Some((place, number)));
        }
        number += 1;
        names_left = later;
    }
    Ok(None)
}
