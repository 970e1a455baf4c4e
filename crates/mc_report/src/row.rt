//! Rows of comma-separated fields.
ghost use Rattle.std.specs.Prelude.{◌≡◌, ◌++◌, ◌∷◌, [], IfOk, OnOk};
ghost use Rattle.csv.specs.Records.{fields_of, partial_of};
ghost use Rattle.csv.specs.Writing.{default_writer, row_text};

use csv::{ByteRecord, Error, WriterBuilder};
use std::alloc::{AllocError, Global};

/// Adds a field.
pub(crate) fn push_field(row: &mut ByteRecord, field: &[u8]) -> Result<(), AllocError>
    requires { partial_of row.old ≡ [] }
    ensures fields { OnOk result (fields_of row.new ≡ fields_of row.old ++ field.now ∷ []) }
    ensures partial { OnOk result (partial_of row.new ≡ []) }
{
    row.push_field(field)
}

/// The bytes of one row, or why there are none.
fn row_or_error(alloc: Global, row: &ByteRecord) -> Result<Vec<u8>, Error>
    ensures { IfOk result (λ bytes. bytes.items ≡ row_text default_writer (fields_of row.now)) }
{
    let mut writer = WriterBuilder::new().from_writer(Vec::new(alloc));
    writer.write_byte_record(row)?;
    match writer.into_inner() {
        Ok(bytes) => Ok(bytes),
        Err(error) => Err(error.into_error()),
    }
}

/// The bytes of one row, with its line end.
pub(crate) fn row_bytes(alloc: Global, row: &ByteRecord) -> Result<Vec<u8>, AllocError>
    ensures { IfOk result (λ bytes. bytes.items ≡ row_text default_writer (fields_of row.now)) }
{
    match row_or_error(alloc, row) {
        Ok(bytes) => Ok(bytes),
        Err(_) => Err(AllocError),
    }
}
