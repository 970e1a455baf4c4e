//! The entries of a justification file, one after the other.
ghost use Rattle.std.specs.Prelude.{◌≡◌, ◌≤◌, ◌<◌, ◌^◌, [], Ok, IfOk, IfErr, length, map};
ghost use Rattle.serde_json.specs.View.{items_view};
ghost use Rattle.mc_limits.specs.Limits.{most_justifications};
ghost use Rattle.mc_justify.specs.Justifications.{entries_from, position_for};
ghost use Rattle.mc_justify.specs.Returned.{AreFit, Gives, GivesFault};
ghost use Rattle.mc_justify.specs.Seen.{seen_entry};

use crate::draft::{add, no_justifications};
use crate::entry::{Entry, read_entry};
use crate::fault::JustifyFault;
use crate::positions::{find, positions_by_id};
use mc_oblige::{Justification, Obligation, Reason};
use serde_json::Value;
use std::alloc::Global;

/// The position of the obligation that entry `number` justifies, where it quotes the source.
fn position_for<'a>(
    alloc: Global,
    source: &'a [u8],
    number: u32,
    entry: Entry<'_>,
    found: Option<(u32, Obligation)>,
) -> Result<u32, JustifyFault<'a>>
    ensures position { IfOk result (λ k.
        position_for source.now number (seen_entry entry.entry) found ≡ Ok k) }
    ensures fault { IfErr result (λ e. GivesFault
        (position_for source.now number (seen_entry entry.entry) found) e) }
{
    let Some((position, obligation)) = found else {
        return Err(JustifyFault::Unknown { entry: number });
    };
    let kept = obligation.text(source);
    let given = entry.quote.as_bytes();
    if kept == given {
        return Ok(position);
    }
    Err(JustifyFault::Quote {
        entry: number,
        kept,
        given: Reason::new(given.to_vec(alloc)?),
    })
}

/// The justifications of a list of entries.
pub(crate) fn read_entries<'a>(
    alloc: Global,
    list: &[Value],
    obligations: &[Obligation],
    source: &'a [u8],
) -> Result<Vec<Justification>, JustifyFault<'a>>
    requires entries { length list.now ≤ most_justifications }
    requires obligations { length obligations.now < 2 ^ 31 }
    ensures justifications { Gives
        (entries_from source.now obligations.now 1 [] (items_view list.now)) result }
    ensures fit { IfOk result (λ v. AreFit (length obligations.now) v.items) }
{
    let positions = positions_by_id(alloc, obligations)?;
    let mut draft = no_justifications(alloc, obligations.len())?;
    let mut number = 1;
    for value in list {
        let Some(entry) = read_entry(value) else {
            return Err(JustifyFault::Shape { entry: number });
        };
        let found = find(obligations, &positions, entry.id);
        let position = position_for(alloc, source, number, entry, found)?;
        add(alloc, &mut draft, number, position, entry.reason)?;
        number += 1;
    }
    Ok(draft.justifications)
}
