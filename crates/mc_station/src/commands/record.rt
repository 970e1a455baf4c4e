//! The command `record`.
ghost use Rattle.std.specs.Prelude.{◌≡◌};
ghost use Rattle.mc_core.specs.Laws.{AreWords};
ghost use Rattle.mc_record.specs.Kept.{IsKept};
ghost use Rattle.mc_record.specs.Lines.{record_lines};
ghost use Rattle.station_replies.specs.Reply.{written};
ghost use Rattle.mc_station.specs.Replied.{seen_reply};
ghost use Rattle.mc_station.specs.Ran.{kept_in};
ghost use Rattle.mc_station.specs.Tests.{status_where};

use crate::digest::digest_of;
use crate::ran::{Ran, number_of};
use crate::reply::Reply;
use crate::words::words_fit;
use mc_record::Record;
use std::alloc::Global;

/// The reply of `record`: what is kept of the tests that were run on the source.
pub fn record<'a>(alloc: Global, source: &[u8], ran: Ran) -> Reply<'a>
    requires { IsKept (kept_in source.now ran) }
    ensures reply { seen_reply result ≡ written (status_where ran.states.items)
        (record_lines (kept_in source.now ran)) }
    ensures words { AreWords ran.matrix.shape ran.matrix.words }
{
    let Ran {
        matrix,
        names,
        states,
        results,
    } = ran;
    drop(results);
    words_fit(&matrix);
    let number = number_of(&states);
    let record = Record {
        digest: digest_of(source),
        names,
        states,
        matrix,
    };
    Reply::of_record(alloc, number, record)
}
