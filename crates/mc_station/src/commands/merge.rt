//! The command `merge`.
ghost use Rattle.mc_record.specs.Kept.{IsKept};
ghost use Rattle.mc_record.specs.Seen.{kept_of};
ghost use Rattle.mc_station.specs.Replied.{seen_reply};
ghost use Rattle.mc_station.specs.commands.Merge.{Merges};

use crate::reply::Reply;
use mc_record::Record;
use std::alloc::Global;

/// The reply of `merge`: the record of two records.
pub fn merge<'a>(alloc: Global, both: Record) -> Reply<'a>
    requires { IsKept (kept_of both) }
    ensures { Merges (kept_of both) (seen_reply result) }
{
    Reply::of_record(alloc, 0, both)
}
