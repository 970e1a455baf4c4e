//! The command `vectors`.
ghost use Rattle.std.specs.Prelude.{IfOk, map};
ghost use Rattle.mc_meaning.specs.Seen.{told_of};
ghost use Rattle.mc_oblige.specs.Shown.{HasEvent};
ghost use Rattle.mc_station.specs.Replied.{seen_reply};
ghost use Rattle.mc_station.specs.Ran.{AreTold, seen_ran};
ghost use Rattle.mc_station.specs.Seen.{HasItsTree, seen_accepted};
ghost use Rattle.mc_station.specs.commands.Vectors.{ListsOn};

use crate::accepted::Accepted;
use crate::ran::{Ran, number_of};
use crate::reply::Reply;
use mc_oblige::evaluated_paths;
use mc_report::vectors_lines;
use std::alloc::{AllocError, Global};

// The reply of `vectors`, from a source that is lent.
fn listed<'a>(alloc: Global, accepted: &Accepted<'_>, ran: &Ran) -> Result<Reply<'a>, AllocError>
    requires instrumented { HasItsTree accepted.now }
    requires told { AreTold (seen_accepted accepted.now) ran.now.matrix (seen_ran ran.now) }
    ensures { IfOk result (λ reply. let a = seen_accepted accepted.now in
        ListsOn (HasEvent a.map ran.now.matrix) a ran.now.names.items ran.now.states.items
        (map told_of ran.now.results.items) (seen_reply reply)) }
{
    let map = &accepted.map;
    let paths = evaluated_paths(alloc, map, &ran.matrix)?;
    let lines = vectors_lines(
        alloc,
        &ran.names,
        &ran.states,
        &ran.results,
        &map.decisions,
        &paths,
    )?;
    Ok(Reply::of_lines(alloc, number_of(&ran.states), lines))
}

/// The reply of `vectors`.
pub fn vectors<'a>(
    alloc: Global,
    accepted: Accepted<'_>,
    ran: &Ran,
) -> Result<Reply<'a>, AllocError>
    requires instrumented { HasItsTree accepted }
    requires told { AreTold (seen_accepted accepted) ran.now.matrix (seen_ran ran.now) }
    ensures { IfOk result (λ reply. let a = seen_accepted accepted.entry in
        ListsOn (HasEvent a.map ran.now.matrix) a ran.now.names.items ran.now.states.items
        (map told_of ran.now.results.items) (seen_reply reply)) }
{
    let reply = listed(alloc, &accepted, ran);
    accepted.leak();
    reply
}
