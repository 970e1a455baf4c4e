//! Runs of `needs`.

use crate::run::{Setting, gives};
use std::alloc::Global;
use std::thread::Threads;
use tests_memory::Fail;

/// The words where independence is by the default, and by masking.
pub const UNIQUE: &str = "needs|s.c|t.csv";

pub const MASKING: &str = "needs|s.c|t.csv|--mode|masking";

/// Two conditions and an outcome are justified of the sources that are asked for with this file.
const JUSTIFICATIONS: &str = r#"[{"id":"D1C2","quote":"b","reason":"b is stuck"},
{"id":"D2C1","quote":"c","reason":"c is set"},
{"id":"D2T","quote":"c","reason":"c is clear"}]"#;

/// Words with `|` between each two, at most twelve, a source `s.c`, its tests `t.csv`, the status
/// and the lines. The file `RIGHT` has the same justifications in every row.
pub struct Row<'a> {
    pub words: &'a str,
    pub source: &'a str,
    pub tests: &'a str,
    pub status: u8,
    pub lines: &'a str,
}

/// Whether the run of a row gives its status and exactly its lines.
pub fn is_written<R: Threads + Sync>(rt: &R, alloc: Global, row: &Row<'_>) -> Result<bool, Fail> {
    let setting = Setting {
        words: row.words,
        source: row.source.as_bytes(),
        tests: row.tests.as_bytes(),
        left: b"",
        right: JUSTIFICATIONS.as_bytes(),
    };
    gives(rt, alloc, &setting, (row.status, row.lines.as_bytes(), b""))
}
