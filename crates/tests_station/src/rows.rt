//! What a text of comma-separated fields is read as.

use csv_records::Rows;
use std::alloc::{AllocError, Global};
use std::test::Fail;

/// The records of a text, each field in brackets and each record on a line, up to `most` records.
fn shown(alloc: Global, text: &[u8], most: u32) -> Result<Vec<u8>, AllocError> {
    let mut shown = Vec::new(alloc);
    let mut rows = Rows::of(alloc, text);
    for _turn in 0..most {
        let Some(row) = rows.next_row()? else {
            return Ok(shown);
        };
        for at in 0..row.len() {
            shown.push(b'[')?;
            shown.extend_from_slice(row.field(at))?;
            shown.push(b']')?;
        }
        shown.push(b'\n')?;
    }
    Ok(shown)
}

/// Texts, how many records are asked for, and what is read.
static TEXTS: [(&str, u32, &str); 10] = [
    ("", 9, ""),
    ("\n\r\n", 9, ""),
    ("a", 9, "[a]\n"),
    ("a,b\n1,2,3\n4\n", 9, "[a][b]\n[1][2][3]\n[4]\n"),
    ("a,b\n1,2,3\n4\n", 2, "[a][b]\n[1][2][3]\n"),
    ("a\r\n\r\nb\n\nc", 9, "[a]\n[b]\n[c]\n"),
    (",,\n", 9, "[][][]\n"),
    ("\"a,b\",\"c\nd\",\"e\"\"f\"\n", 9, "[a,b][c\nd][e\"f]\n"),
    ("\"open, to the end\n", 9, "[open, to the end\n]\n"),
    ("\u{feff}a,b\n", 9, "[a][b]\n"),
];

#[test]
fn reads_every_record(rt: HostRuntime) -> Result<(), Fail> {
    let alloc = rt.alloc();
    for (text, most, want) in &TEXTS {
        let got = shown(alloc, text.as_bytes(), *most)?;
        assert_eq!(rt; got.as_slice(), want.as_bytes(), "{text}");
    }
    Ok(())
}

/// Places in the record `a,b`, and the field at each; there is nothing after the last.
static FIELDS: [(usize, &str); 4] = [(0, "a"), (1, "b"), (2, ""), (usize::MAX, "")];

#[test]
fn has_no_field_past_the_last(rt: HostRuntime) -> Result<(), Fail> {
    let mut rows = Rows::of(rt.alloc(), b"a,b");
    let row = rows.next_row()?.ok_or("no record")?;
    for (at, want) in &FIELDS {
        assert!(rt; row.field(*at) == want.as_bytes(), "field {at}");
    }
    Ok(())
}
