//! Each put on the output fails in turn.

use crate::pieces::{Pieces, part_of, pieces_named};
use crate::run::{Faults, NONE, run};
use std::alloc::Global;
use std::thread::Threads;
use tests_memory::Fail;

/// Rows `PIECES@PUTS@STATUS@WORDS`: how the text is put, with how many puts, which were counted by
/// hand, and the status where none fails. A command whose text may differ from run to run has a row
/// with `none.csv`, a tests file of no test, if its text is the same there.
const ROWS: &str = "\
lines@19@0@report|s.c|t.csv
lines@19@0@report|s.c|t.csv|--mode|masking|--workers|1
lines@19@1@report|s.c|t.csv|--justify|j.json
lines@16@1@report|s.c|none.csv
lines@8@0@report|s.c|t.csv|--format|csv
lines@8@1@report|s.c|t.csv|--format|csv|--justify|j.json
whole@1@0@report|s.c|t.csv|--format|json
whole@1@1@report|s.c|t.csv|--format|json|--justify|j.json
lines@6@0@vectors|s.c|t.csv
tokens@142@0@instrument|s.c
whole@1@0@adapt|s.c
lines@14@0@record|s.c|t.csv
lines@3@0@watch|s.c|none.csv|--looks|2
lines@14@0@merge|s.c|LEFT|RIGHT
lines@19@0@analyse|s.c|BOTH
lines@8@1@analyse|s.c|LEFT|--format|csv
whole@1@1@analyse|s.c|RIGHT|--format|json|--justify|j.json
lines@9@0@selfload|1
lines@4@0@reduce|s.c|t.csv
lines@8@0@mutate|s.c|t.csv
listing@2@0@list|s.c|t.csv
lines@8@0@functions|s.c|t.csv
sums@3@1@needs|s.c|none.csv
lines@7@0@results|s.c|t.csv
listing@6@1@list|l.c|none.csv
";

/// How many bytes a put takes before it fails. Some pieces are shorter.
static TAKEN: [u32; 3] = [0, 1, 5];

/// A row.
#[derive(Clone, Copy)]
struct Row<'t> {
    pieces: Pieces,
    puts: u32,
    status: u8,
    words: &'t str,
}

fn row_of(text: &str) -> Option<Row<'_>> {
    let (pieces, rest) = text.split_once('@')?;
    let (puts, rest) = rest.split_once('@')?;
    let (status, words) = rest.split_once('@')?;
    Some(Row {
        pieces: pieces_named(pieces)?,
        puts: puts.parse::<u32>().ok()?,
        status: status.parse::<u8>().ok()?,
        words,
    })
}

// Whether the status is 7 where this put fails after this number of bytes, the output has what was
// put before it and these bytes, and nothing is put after it.
fn is_cut<R: Threads + Sync>(
    rt: &R,
    alloc: Global,
    row: Row<'_>,
    text: &[u8],
    out: (u32, u32),
) -> Result<bool, Fail> {
    let given = run(rt, alloc, row.words, Faults { out, ..NONE })?;
    let (number, takes) = out;
    let is_last = given.out.puts() == number && given.out.later() == 0;
    let is_silent = given.diag.puts() == 0;
    let has_part = part_of(row.pieces, text, number, takes) == Some(given.out.sink().bytes());
    let is_wanted = given.status == 7 && is_last && is_silent && has_part;
    drop(given);
    Ok(is_wanted)
}

fn each_is_cut<R: Threads + Sync>(
    rt: &R,
    alloc: Global,
    row: Row<'_>,
    text: &[u8],
) -> Result<bool, Fail> {
    for number in 1..=row.puts {
        for takes in &TAKEN {
            if !is_cut(rt, alloc, row, text, (number, *takes))? {
                return Ok(false);
            }
        }
    }
    Ok(true)
}

fn holds<R: Threads + Sync>(rt: &R, alloc: Global, text: &str) -> Result<bool, Fail> {
    let Some(row) = row_of(text) else {
        return Err(Fail);
    };
    let whole = run(rt, alloc, row.words, NONE)?;
    let is_silent = whole.diag.puts() == 0;
    let is_whole = whole.status == row.status && whole.out.puts() == row.puts && is_silent;
    let are_cut = each_is_cut(rt, alloc, row, whole.out.sink().bytes());
    drop(whole);
    Ok(are_cut? && is_whole)
}

#[test]
fn each_put_fails_in_turn(rt: HostRuntime) -> Result<(), Fail> {
    for row in ROWS.lines() {
        assert!(rt; holds(&rt, rt.alloc(), row)?, "{row}");
    }
    Ok(())
}
