//! What is answered: a status, a line on what is refused, and what goes to the output.
ghost use Rattle.std.specs.Prelude.{◌≡◌, ◌≤◌, IfOk, length};
ghost use Rattle.mc_lex.specs.Tokens.{toks_of};
ghost use Rattle.mc_limits.specs.Limits.{most_source_bytes};
ghost use Rattle.mc_port.specs.Lines.{bytes_of};
ghost use Rattle.mc_probe.specs.Trees.{tree_of};
ghost use Rattle.mc_record.specs.Kept.{IsKept};
ghost use Rattle.mc_record.specs.Lines.{record_lines};
ghost use Rattle.mc_record.specs.Seen.{kept_of};
ghost use Rattle.station_replies.specs.Reply.{cannot_read, written};
ghost use Rattle.mc_station.specs.Output.{listing_pieces, program_pieces, source_pieces};
ghost use Rattle.station_replies.specs.Reply as spec;
ghost use Rattle.station_replies.specs.Seen.{IsReplyTo, reply_to, seen_file};
ghost use Rattle.mc_station.specs.Replied.{seen_reply};

use crate::listed::Listed;
use crate::output::Output;
use crate::printable::Printable;
use crate::writable::Writable;
use mc_lex::Token;
use mc_oblige::{Obligation, Verdict};
use mc_probe::Instrumented;
use mc_record::Record;
use station_replies::{File, Refusal, Status, Stop, cannot_read_line, refusal_line};
use std::alloc::{AllocError, Global};

/// A status, the text for the errors' sink, and what goes to the output.
#[derive(Drop)]
pub struct Reply<'a> {
    pub status: Status,
    pub diag: Vec<u8>,
    pub out: Output<'a>,
}

impl<'a> Reply<'a> {
    /// Lines for the output. Something is missing where the number is not 0.
    pub fn of_lines(alloc: Global, number: u8, lines: Vec<Vec<u8>>) -> Reply<'a>
        ensures { seen_reply result ≡ written number (bytes_of lines.items) }
    {
        Reply {
            status: Status::written(number),
            diag: Vec::new(alloc),
            out: Output::Lines(lines),
        }
    }

    /// A record for the output. Some test did not pass where the number is not 0.
    pub fn of_record(alloc: Global, number: u8, kept: Record) -> Reply<'a>
        requires { IsKept (kept_of kept) }
        ensures { seen_reply result ≡ written number (record_lines (kept_of kept)) }
    {
        Reply {
            status: Status::written(number),
            diag: Vec::new(alloc),
            out: Output::Record(Writable { kept }),
        }
    }

    /// The text of an instrumented program for the output. `tokens` are those of its source.
    pub fn of_program(alloc: Global, tokens: Vec<Token<'a>>, tree: Instrumented<'a>) -> Reply<'a>
        ensures { seen_reply result
            ≡ written 0 (program_pieces (toks_of tokens.entry.items) (tree_of tree.entry)) }
    {
        Reply {
            status: Status::written(0),
            diag: Vec::new(alloc),
            out: Output::Program(Printable { tokens, tree }),
        }
    }

    /// A source for the output.
    pub fn of_source(alloc: Global, source: &'a [u8]) -> Reply<'a>
        ensures { seen_reply result ≡ written 0 (source_pieces source.entry.now) }
    {
        Reply {
            status: Status::written(0),
            diag: Vec::new(alloc),
            out: Output::Source(source),
        }
    }

    /// The listing of a source for the output. Something is missing where the number is not 0.
    pub fn of_listing(
        alloc: Global,
        number: u8,
        source: &'a [u8],
        obligations: Vec<Obligation>,
        verdicts: Vec<Verdict>,
    ) -> Reply<'a>
        requires short { length source.now ≤ most_source_bytes }
        requires same { length obligations.items ≡ length verdicts.items }
        ensures { seen_reply result ≡ written number
            (listing_pieces source.now obligations.items verdicts.items) }
    {
        Reply {
            status: Status::written(number),
            diag: Vec::new(alloc),
            out: Output::Listing(Listed {
                source,
                obligations,
                verdicts,
            }),
        }
    }

    /// A text on the errors' sink alone.
    pub fn of_text(alloc: Global, status: Status, text: Vec<u8>) -> Reply<'a>
        ensures { seen_reply result ≡ spec.refusal status text.items }
    {
        Reply {
            status,
            diag: text,
            out: Output::Lines(Vec::new(alloc)),
        }
    }

    /// The reply to a file that is refused.
    pub fn of_refusal(alloc: Global, refusal: &Refusal<'_>) -> Result<Reply<'a>, AllocError>
        ensures { IfOk result (λ reply. seen_reply reply ≡ reply_to refusal.now) }
    {
        let line = refusal_line(alloc, refusal)?;
        Ok(Reply::of_text(alloc, refusal.status(), line))
    }

    /// The reply where a phase gives nothing.
    pub fn of_stop(alloc: Global, stop: &Stop<'_>) -> Result<Reply<'a>, AllocError>
        ensures { IfOk result (λ reply. IsReplyTo stop.now (seen_reply reply)) }
    {
        match stop {
            Stop::Refused(refusal) => Reply::of_refusal(alloc, refusal),
            Stop::OutOfMemory => Err(AllocError),
        }
    }

    /// The reply to a file that cannot be read.
    pub fn of_unreadable(alloc: Global, file: File<'_>) -> Result<Reply<'a>, AllocError>
        ensures { IfOk result (λ reply. seen_reply reply ≡ cannot_read (seen_file file.entry)) }
    {
        let line = cannot_read_line(alloc, file.name)?;
        Ok(Reply::of_text(alloc, Status::CannotRead, line))
    }
}
