//! One record of a text.
ghost use Rattle.std.specs.Prelude.{◌≡◌, length};
ghost use Rattle.csv_records.specs.Rows.{field_or_empty};

use csv::ByteRecord;
use std::marker::Model;

/// A record: the list of its fields, quotes taken off.
#[derive(Drop)]
pub struct Row {
    fields: ByteRecord,
}

impl Model for Row {
    ghost use Rattle.std.specs.Prelude.{List, ℕ};
    ghost use Rattle.csv.specs.Records.{fields_of};

    ghost Value = { List (List ℕ) };

    ghost view = { λ r. fields_of r.fields };
}

ghost use Rattle.csv.specs.Records.{fields_of};

impl Row {
    /// The fields that were read.
    pub(crate) fn of(fields: ByteRecord) -> Row
        ensures { result ≡ fields_of fields }
    {
        Row { fields }
    }

    /// How many fields there are.
    pub fn len(&self) -> usize
        ensures { result ≡ length self.now }
    {
        self.fields.len()
    }

    /// The field at that place, counted from 0; no bytes where there is no such field.
    pub fn field(&self, at: usize) -> &[u8]
        ensures { result.now ≡ field_or_empty self.now at }
    {
        match self.fields.get(at) {
            Some(text) => text,
            None => &[],
        }
    }
}
