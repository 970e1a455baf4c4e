//! What goes to the output.
ghost use Rattle.std.specs.Prelude.{◌≡◌, ◌≤◌};
ghost use Rattle.std.specs.List.{concat};
ghost use Rattle.mc_port.specs.Sink.{Puts};
ghost use Rattle.mc_station.specs.Replied.{pieces_of};

use crate::listed::Listed;
use crate::printable::Printable;
use crate::writable::Writable;
use mc_list::write_listing;
use mc_port::{PutFault, Sink, put_lines};
use mc_print::print;
use mc_record::write_record;

/// What is put on the output once all has been decided: to put it takes no memory.
#[derive(Drop)]
pub enum Output<'a> {
    /// Lines, or texts of several lines, each put as one piece.
    Lines(Vec<Vec<u8>>),
    /// The lines of a record.
    Record(Writable),
    /// The text of an instrumented program.
    Program(Printable<'a>),
    /// A source.
    Source(&'a [u8]),
    /// The lines of a source, each after a margin.
    Listing(Listed<'a>),
}

impl Output<'_> {
    /// Puts all of it, up to the first piece that cannot be put.
    pub fn put<K: Sink>(&self, out: &mut K) -> Result<(), PutFault>
        ensures bytes { Puts (K.written out.old) (K.written out.new)
            (K.faults out.old) (K.faults out.new) (concat (pieces_of self.now)) result }
        ensures later { K.faults out.old ≤ K.faults out.new }
    {
        match self {
            Output::Lines(lines) => put_lines(lines, out),
            Output::Record(writable) => write_record(&writable.kept, out),
            Output::Program(printable) => print(&printable.tokens, &printable.tree, out),
            Output::Source(source) => out.put(source),
            Output::Listing(listed) => {
                write_listing(listed.source, &listed.obligations, &listed.verdicts, out)
            }
        }
    }
}
