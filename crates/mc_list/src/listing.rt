//! The listing of a source.
ghost use Rattle.std.specs.Prelude.{◌≡◌, ◌≤◌, ◌<◌, ◌^◌, ◌++◌, length};
ghost use Rattle.std.specs.List.{concat};
ghost use Rattle.mc_limits.specs.Limits.{most_source_bytes};
ghost use Rattle.mc_port.specs.Sink.{Puts};
ghost use Rattle.mc_list.specs.Lines.{stripped};
ghost use Rattle.mc_list.specs.Listing.{listing, margin};

use crate::iterators::lines;
use crate::line::Line;
use crate::line_mark::line_mark;
use crate::margin::margin;
use crate::mark::Mark;
use crate::table::Table;
use mc_oblige::{Obligation, Verdict};
use mc_port::{PutFault, Sink};

/// Writes each line of the source after a margin of 12 bytes: its number right in 7 places, a
/// space, the mark of the worst verdict on what begins there, and ` | `. The margin and the line
/// are one `put` each. Takes no memory.
///
/// The mark is `!` where an obligation is missing, `~` where one is stale, `j` where one is
/// justified, `+` where one is met, in this order, and a space where none begins on the line.
pub fn write_listing<K: Sink>(
    source: &[u8],
    obligations: &[Obligation],
    verdicts: &[Verdict],
    out: &mut K,
) -> Result<(), PutFault>
    requires short { length source.now ≤ most_source_bytes }
    requires same { length obligations.now ≡ length verdicts.now }
    ensures text { Puts (K.written out.old) (K.written out.new) (K.faults out.old)
        (K.faults out.new) (listing source.now obligations.now verdicts.now) result }
    ensures later { K.faults out.old ≤ K.faults out.new }
    // without its margins the listing is the source
    ensures back { concat (stripped (listing source.now obligations.now verdicts.now))
        ≡ source.now }
{
    let mut table = Table::of(obligations, verdicts);
    let mut left = lines(source);
    while let Some(line) = left.next() {
        let mark = line_mark(&mut table, &line, obligations, verdicts);
        match put_line(&line, mark, out) {
            Ok(()) => {}
            Err(fault) => return Err(fault),
        }
    }
    Ok(())
}

fn put_line<K: Sink>(line: &Line<'_>, mark: Mark, out: &mut K) -> Result<(), PutFault>
    ensures bytes { Puts (K.written out.old) (K.written out.new) (K.faults out.old)
        (K.faults out.new) (margin line.now.number mark ++ line.now.bytes.now) result }
    ensures later { K.faults out.old ≤ K.faults out.new }
{
    let front = margin(line.number, mark);
    match out.put(front.as_slice()) {
        Ok(()) => out.put(line.bytes),
        Err(fault) => Err(fault),
    }
}
