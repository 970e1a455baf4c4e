//! The put on the errors' sink fails.

use crate::run::{Faults, NONE, run};
use std::alloc::Global;
use std::thread::Threads;
use tests_memory::Fail;

/// Rows `STATUS@LINE@WORDS`: the status and what is put on the errors' sink, where that does not
/// fail. It is the usage where there is no line.
const ROWS: &str = "\
2@@report|s.c
2@@merge|s.c|LEFT
2@@instrument|s.c|t.csv
2@@report|s.c|t.csv|--workers|01
2@@vectors|s.c|t.csv|--fuel|100000001
2@@report|s.c|t.csv|--mode|unique|--mode|unique
3@mcdc: source 1:20: undeclared@report|bad.c|t.csv
3@mcdc: source 1:20: undeclared@instrument|bad.c
3@mcdc: source 1:20: undeclared@adapt|bad.c
3@mcdc: source 1:20: undeclared@merge|bad.c|LEFT|RIGHT
3@mcdc: source 1:20: undeclared@list|bad.c|t.csv
3@mcdc: source: nothing of u.c@functions|s.c|absent|--of|u.c
3@mcdc: source: nothing of u.c@needs|s.c|absent|--of|u.c
4@mcdc: tests record 2: arguments@vectors|s.c|bad.csv
4@mcdc: tests record 2: arguments@record|s.c|bad.csv
4@mcdc: tests record 2: arguments@reduce|s.c|bad.csv
4@mcdc: tests record 2: arguments@mutate|s.c|bad.csv
4@mcdc: tests record 2: arguments@results|s.c|bad.csv
4@mcdc: record t.csv line 1: header@merge|s.c|t.csv|RIGHT
4@mcdc: record t.csv line 1: header@merge|s.c|LEFT|t.csv
4@mcdc: record t.csv line 1: header@analyse|s.c|t.csv
4@mcdc: record EARLIER line 1: old rules@analyse|full.c|EARLIER
4@mcdc: record EARLIER line 1: old rules@merge|full.c|EARLIER|EARLIER
4@mcdc: records: same test 1 and 1@merge|s.c|LEFT|LEFT
5@mcdc: justification entry 0: shape@report|s.c|t.csv|--justify|bad.json
5@mcdc: justification: json@list|s.c|t.csv|--justify|s.c
5@mcdc: justification: json@analyse|s.c|BOTH|--justify|s.c
6@mcdc: cannot read absent@report|absent|t.csv
6@mcdc: cannot read absent@reduce|s.c|absent
6@mcdc: cannot read absent@analyse|s.c|BOTH|--justify|absent
";

/// How many bytes the put takes before it fails. All lines are shorter than the last one.
static TAKEN: [u32; 3] = [0, 5, 4096];

// Whether the status is 7 where the put fails after this number of bytes, and both sinks have no
// more than that first part.
fn is_cut<R: Threads + Sync>(
    rt: &R,
    alloc: Global,
    words: &str,
    line: &[u8],
    takes: u32,
) -> Result<bool, Fail> {
    let diag = (1, takes);
    let given = run(rt, alloc, words, Faults { diag, ..NONE })?;
    let is_last = given.diag.puts() == 1 && given.diag.later() == 0;
    let part = line.get(..line.len().min(takes as usize));
    let has_part = part == Some(given.diag.sink().bytes());
    let is_wanted = given.status == 7 && given.out.puts() == 0 && is_last && has_part;
    drop(given);
    Ok(is_wanted)
}

fn each_is_cut<R: Threads + Sync>(
    rt: &R,
    alloc: Global,
    words: &str,
    line: &[u8],
) -> Result<bool, Fail> {
    for takes in &TAKEN {
        if !is_cut(rt, alloc, words, line, *takes)? {
            return Ok(false);
        }
    }
    Ok(true)
}

fn is_line(told: &[u8], line: &str) -> bool {
    if line.is_empty() {
        told.starts_with(b"usage: mcdc report ")
    } else {
        told.strip_suffix(b"\n") == Some(line.as_bytes())
    }
}

fn is_refused<R: Threads + Sync>(
    rt: &R,
    alloc: Global,
    status: u8,
    line: &str,
    words: &str,
) -> Result<bool, Fail> {
    let given = run(rt, alloc, words, NONE)?;
    let told = given.diag.sink().bytes();
    let is_silent = given.out.puts() == 0 && given.diag.puts() == 1;
    let is_wanted = given.status == status && is_silent && is_line(told, line);
    let are_cut = each_is_cut(rt, alloc, words, told);
    drop(given);
    Ok(are_cut? && is_wanted)
}

fn holds<R: Threads + Sync>(rt: &R, alloc: Global, row: &str) -> Result<bool, Fail> {
    let Some((status, rest)) = row.split_once('@') else {
        return Err(Fail);
    };
    let Some((line, words)) = rest.split_once('@') else {
        return Err(Fail);
    };
    let Ok(status) = status.parse::<u8>() else {
        return Err(Fail);
    };
    is_refused(rt, alloc, status, line, words)
}

#[test]
fn refusals_that_cannot_be_told(rt: HostRuntime) -> Result<(), Fail> {
    for row in ROWS.lines() {
        assert!(rt; holds(&rt, rt.alloc(), row)?, "{row}");
    }
    Ok(())
}
