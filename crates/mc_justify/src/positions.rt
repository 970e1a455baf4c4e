//! The obligations by their ids.
ghost use Rattle.std.specs.Prelude.{◌≡◌, ◌<◌, ◌^◌, ℕ, List, IfOk, OnOk, Some, length, if◌then◌else◌};
ghost use Rattle.std.specs.BTreeMap.{get_by_text};
ghost use Rattle.std.specs.Str.{bytes_eq};
ghost use Rattle.mc_oblige.specs.Ids.{id_text};
ghost use Rattle.mc_justify.specs.Justifications.{obligation_named};
ghost use Rattle.mc_justify.specs.Seen.{ArePositions};

use mc_oblige::{Obligation, ObligationId, id_text};
use std::alloc::{AllocError, Global};
use std::collections::BTreeMap;

/// Gives an id its position, in place of the one that it had.
fn place(
    alloc: Global,
    positions: &mut BTreeMap<String, u32>,
    id: ObligationId,
    position: u32,
) -> Result<(), AllocError>
    ensures { OnOk result ((q : List ℕ) → get_by_text positions.new q
        ≡ (if bytes_eq (id_text id) q then Some position else get_by_text positions.old q)) }
{
    let text = id_text(alloc, id)?;
    positions.insert(text, position)?;
    Ok(())
}

/// The position of each obligation by its id; of obligations with one id it is that of the first.
pub(crate) fn positions_by_id(
    alloc: Global,
    obligations: &[Obligation],
) -> Result<BTreeMap<String, u32>, AllocError>
    requires { length obligations.now < 2 ^ 31 }
    ensures { IfOk result (λ positions. ArePositions positions obligations.now) }
{
    let mut positions = BTreeMap::new(alloc);
    let mut left = obligations;
    while let [before @ .., obligation] = left {
        place(alloc, &mut positions, obligation.id, before.len() as u32)?;
        left = before;
    }
    Ok(positions)
}

/// The position that an id has.
fn position_of(positions: &BTreeMap<String, u32>, id: &str) -> Option<u32>
    ensures { result ≡ get_by_text positions.now id.now }
{
    positions.get(id).copied()
}

/// The first obligation with an id, and its position.
pub(crate) fn find(
    obligations: &[Obligation],
    positions: &BTreeMap<String, u32>,
    id: &str,
) -> Option<(u32, Obligation)>
    requires { ArePositions positions.now obligations.now }
    ensures { result ≡ obligation_named id.now 0 obligations.now }
{
    let position = position_of(positions, id)?;
    Some((position, obligations[position as usize]))
}
