//! The records of a text, one after the other.
ghost use Rattle.std.specs.Prelude.{◌≡◌};
ghost use Rattle.csv_records.specs.Rows.{Gives, rows_of};

use crate::row::Row;
use csv::{ByteRecord, ErrorKind, Reader, ReaderBuilder};
use std::alloc::{AllocError, Global};
use std::marker::Model;

/// The records of a text that are left to be read, in their order.
#[derive(Drop)]
pub struct Rows<'t> {
    alloc: Global,
    reader: Reader<&'t [u8]>,
    ended: bool,
}

impl<'t> Model for Rows<'t> {
    ghost use Rattle.std.specs.Prelude.{List, ℕ};
    ghost use Rattle.csv_records.specs.Left.{rows_left, IsReading};

    ghost Value = { List (List (List ℕ)) };

    ghost view = { λ r. rows_left r.ended r.reader };

    ghost invariant = { λ r. IsReading r.ended r.reader };
}

impl<'t> Rows<'t> {
    /// Every record of the text, of any width, the first one included. Takes no memory.
    pub fn of(alloc: Global, text: &'t [u8]) -> Rows<'t>
        ensures { result ≡ rows_of text.now }
    {
        let reader = ReaderBuilder::new()
            .has_headers(false)
            .flexible(true)
            .from_reader(alloc, text);
        Rows {
            alloc,
            reader,
            ended: false,
        }
    }

    /// The next record, or `None` after the last. A reader over bytes in memory has no fault of its
    /// own, so an error of reading counts as out of memory. After an error nothing is left.
    pub fn next_row(&mut self) -> Result<Option<Row>, AllocError>
        ensures { Gives self.old result self.new }
    {
        if self.ended {
            return Ok(None);
        }
        let mut record = ByteRecord::new(self.alloc);
        match self.reader.read_byte_record(&mut record) {
            Ok(true) => Ok(Some(Row::of(record))),
            Ok(false) => {
                self.ended = true;
                Ok(None)
            }
            Err(error) => {
                self.ended = true;
                match error.kind() {
                    ErrorKind::Io(_) | ErrorKind::OutOfMemory => Err(AllocError),
                    _ => unreachable!(),
                }
            }
        }
    }
}
