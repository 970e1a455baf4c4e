//! Each load fails in turn.

use crate::run::{Faults, NONE, run};
use std::alloc::Global;
use std::thread::Threads;
use tests_memory::Fail;

/// Rows `FILES@WORDS`: the names of the files that are asked for, in order, with `,` after each.
const ROWS: &str = "\
s.c,t.csv,j.json,@report|s.c|t.csv|--justify|j.json
s.c,t.csv,@report|s.c|t.csv|--format|json
s.c,t.csv,@vectors|s.c|t.csv
s.c,@instrument|s.c
s.c,@adapt|s.c
s.c,t.csv,@record|s.c|t.csv
s.c,LEFT,RIGHT,@merge|s.c|LEFT|RIGHT
s.c,BOTH,@analyse|s.c|BOTH
s.c,BOTH,j.json,@analyse|--justify|j.json|s.c|BOTH
s.c,t.csv,@reduce|s.c|t.csv
s.c,t.csv,@mutate|s.c|t.csv
s.c,t.csv,j.json,@list|--justify|j.json|s.c|t.csv
s.c,t.csv,j.json,@functions|--justify|j.json|s.c|t.csv
s.c,t.csv,j.json,@needs|--justify|j.json|s.c|t.csv
s.c,t.csv,@results|s.c|t.csv
,@selfload|1
";

// Whether the load of this number is that of this file: where it fails, the line names the file.
fn is_named<R: Threads + Sync>(
    rt: &R,
    alloc: Global,
    words: &str,
    load: u32,
    name: &str,
) -> Result<bool, Fail> {
    let line = format!(in alloc; "mcdc: cannot read {name}\n")?;
    let given = run(rt, alloc, words, Faults { load, ..NONE });
    let is_wanted = match &given {
        Ok(given) => {
            let has_line = given.diag.sink().bytes() == line.as_bytes();
            given.status == 6 && has_line && given.out.puts() == 0
        }
        Err(_) => false,
    };
    drop(given);
    drop(line);
    Ok(is_wanted)
}

// Whether no load has this number.
fn is_whole<R: Threads + Sync>(
    rt: &R,
    alloc: Global,
    words: &str,
    load: u32,
) -> Result<bool, Fail> {
    let given = run(rt, alloc, words, Faults { load, ..NONE })?;
    let is_wanted = given.status < 2 && given.diag.puts() == 0;
    drop(given);
    Ok(is_wanted)
}

fn holds<R: Threads + Sync>(rt: &R, alloc: Global, row: &str) -> Result<bool, Fail> {
    let Some((names, words)) = row.split_once('@') else {
        return Err(Fail);
    };
    let mut load = 1_u32;
    for name in names.split(',') {
        if name.is_empty() {
            return is_whole(rt, alloc, words, load);
        }
        if !is_named(rt, alloc, words, load, name)? {
            return Ok(false);
        }
        load = load.saturating_add(1);
    }
    Err(Fail)
}

#[test]
fn each_load_fails_in_turn(rt: HostRuntime) -> Result<(), Fail> {
    for row in ROWS.lines() {
        assert!(rt; holds(&rt, rt.alloc(), row)?, "{row}");
    }
    Ok(())
}
