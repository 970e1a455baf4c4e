//! Which obligations are shown.
ghost use Rattle.std.specs.Prelude.{◌≡◌, ◌+◌, ◌≤◌, length, IfOk};
ghost use Rattle.mc_cond.specs.Tree.{tree_of, size};
ghost use Rattle.mc_paths.specs.Paths.{count_of};
ghost use Rattle.mc_probe.specs.Maps as maps;
ghost use Rattle.mc_probe.specs.BitMaps.{map_of};
ghost use Rattle.mc_reduce.specs.steps.Bits.{ShowAt};
ghost use Rattle.mc_reduce.specs.steps.Loss.{IsCounted, along, AreKnown, AreShown};

use crate::hint::Hints;
use crate::judged::{is_shown, obligation_count, path_count};
use crate::paths::seen_paths;
use mc_oblige::Mode;
use mc_probe::{BitMap, MappedDecision};
use std::alloc::{AllocError, Global};

/// The number of obligations that one bit each shows. They come first, in the order of their bits.
pub(crate) fn events(map: &BitMap) -> u32
    ensures value { result ≡ maps.first_path (map_of map.now) }
    ensures inside { result ≤ map.now.bits }
{
    let count = map.entries.len() + map.exits.len() + map.statements.len() + map.labels.len();
    count as u32
}

/// Which obligations the tests with these counts show, in the order of the obligations. Appends the
/// hints of those of decisions.
pub(crate) fn all_shown(
    alloc: Global,
    map: &BitMap,
    counts: &[u32],
    hints: &mut Hints,
    mode: Mode,
) -> Result<Vec<bool>, AllocError>
    requires { length counts.now ≡ map.now.bits }
    ensures { IfOk result (λ v.
        AreShown (map_of map.now) mode (IsCounted counts.now) v.items) }
{
    let mut shown = events_shown(alloc, counts, events(map))?;
    for mapped in &map.decisions {
        let own = decision_shown(alloc, mapped, counts, hints, mode)?;
        shown.extend_from_slice(&own)?;
    }
    Ok(shown)
}

/// Which of the first bits some test has.
fn events_shown(alloc: Global, counts: &[u32], events: u32) -> Result<Vec<bool>, AllocError>
    requires { events ≤ length counts.now }
    ensures { IfOk result (λ v. AreKnown (IsCounted counts.now) events v.items) }
{
    let mut shown = Vec::new(alloc);
    for bit in 0..events {
        shown.push(counts[bit as usize] > 0)?;
    }
    Ok(shown)
}

/// Which obligations of the decision are shown.
fn decision_shown(
    alloc: Global,
    mapped: &MappedDecision,
    counts: &[u32],
    hints: &mut Hints,
    mode: Mode,
) -> Result<Vec<bool>, AllocError>
    requires { mapped.now.base + count_of (tree_of mapped.now.decision.tree) ≤ length counts.now }
    ensures { IfOk result (λ v. let t = tree_of mapped.now.decision.tree in
        AreKnown (ShowAt (along (IsCounted counts.now) mapped.now.base) mode t)
        (2 + size t) v.items) }
{
    let seen = seen_paths(alloc, counts, mapped.base, path_count(mapped))?;
    let mut shown = Vec::new(alloc);
    for at in 0..obligation_count(mapped) {
        let mut hint = None;
        shown.push(is_shown(mapped, &seen, mode, at, &mut hint))?;
        hints.add(hint)?;
    }
    Ok(shown)
}
