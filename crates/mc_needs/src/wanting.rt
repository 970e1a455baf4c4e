//! The wanted vectors of all asked obligations.
ghost use Rattle.std.specs.Prelude.{◌≡◌, ℕ, Bool, length, slice_get, Some, IfOk};
ghost use Rattle.mc_probe.specs.BitMaps.{map_of};
ghost use Rattle.mc_probe.specs.Maps.{Mapped};
ghost use Rattle.mc_oblige.specs.declared.obligation.ObligationId.TheVariants.{Outcome};
ghost use Rattle.mc_oblige.specs.Obligations.{obligations_of};
ghost use Rattle.mc_needs.specs.Needs.{Gives};
ghost use Rattle.mc_needs.specs.Asked.{IsAsked};
ghost use Rattle.mc_needs.specs.Wanted.{AreWanted};
ghost use Rattle.mc_needs.specs.steps.Marks.{IsMarkedIn};
ghost use Rattle.mc_needs.specs.steps.State.{AreUnseen};

use crate::due::asked_outcomes;
use crate::ids::asked_ids;
use crate::listing::Listing;
use mc_oblige::{Mode, Obligation};
use mc_probe::BitMap;
use needed_paths::Wanted;
use std::alloc::{AllocError, Global};

/// The wanted vectors: what each asked condition needs, in order, judged anew with what is marked
/// and wanted so far, and then the same for each asked outcome.
pub(crate) fn all_wanted(
    alloc: Global,
    map: &BitMap,
    marks: Vec<bool>,
    mode: Mode,
    obligations: &[Obligation],
    asked: &[bool],
) -> Result<Vec<Wanted>, AllocError>
    requires bits { length marks.items ≡ map.now.bits }
    requires obligations { obligations.now ≡ obligations_of (map_of map.now) }
    requires count { length asked.now ≡ length obligations.now }
    requires missing { let m = map_of map.now in
        AreUnseen (IsMarkedIn m marks.items) m asked.now }
    ensures { IfOk result (λ v. let m = map_of map.now in
        AreWanted (IsMarkedIn m marks.items) m mode asked.now v.items) }
{
    let ids = asked_ids(alloc, obligations, asked)?;
    let due = asked_outcomes(alloc, map.decisions.len(), obligations, asked)?;
    let mut listing = Listing::new(alloc, marks, due);
    let mut left = ids.as_slice();
    while let [id, later @ ..] = left {
        listing.add_for(alloc, map, mode, *id)?;
        left = later;
    }
    Ok(listing.wanted)
}
