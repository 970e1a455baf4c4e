//! Which items the tests of a source kill, by workers in threads of their own.
use crate::kills::tell_kills;
use std::alloc::{AllocError, Global};
use std::thread::Threads;

/// A row is a source, `@`, the records of its tests, each after `$`, `@` and the items that are
/// killed, read off by hand: with T tests, item i is the mutant i div T + 1 under the test i mod T.
static ROWS: &str = "\
int f(int a,int b){return a&&b;}@$t1,f,1 1,,1,$t2,f,1 0,,0,$t3,f,0 1,,0,@1 2 3 5 8 9 12 13 16 18 of 21
int f(int a,int b){return a&&b;}@$t1,f,1 1,,1,$t2,f,0 0,,0,@2 6 8 12 of 14
void mcdc_out(int v);int f(int a){while(a>0){mcdc_out(a);a--;}return 0;}@$t1,f,1,,0,1$t2,f,0,,0,none@0 1 2 3 4 6 7 of 8
int f(_Bool a,_Bool b){return a^b;}@$t1,f,1 1,,0,$t2,f,1 0,,1,@0 2 3 6 7 8 9 11 12 of 14
int f(int a,int b){return a+b;}@$t1,f,1 1,,2,@of 0
int f(int a,int b){return a&&b;}@@of 0";

fn is_killed<R: Threads + Sync>(
    rt: &R,
    alloc: Global,
    row: &str,
    workers: u32,
) -> Result<bool, AllocError> {
    let (source, rest) = row.split_once('@').unwrap_or((row, ""));
    let (records, want) = rest.split_once('@').unwrap_or((rest, ""));
    let mut text = String::new(alloc);
    let told = tell_kills(rt, alloc, &mut text, source, records, workers);
    let same = text.as_str() == want;
    drop(text);
    told?;
    Ok(same)
}

/// The first row that this number of workers does not come to.
fn wrong_row<R: Threads + Sync>(
    rt: &R,
    alloc: Global,
    workers: u32,
) -> Result<Option<&'static str>, AllocError> {
    for row in ROWS.lines() {
        if !is_killed(rt, alloc, row, workers)? {
            return Ok(Some(row));
        }
    }
    Ok(None)
}

#[test]
fn one_worker_kills(rt: HostRuntime) -> Result<(), AllocError> {
    assert_eq!(rt; wrong_row(&rt, rt.alloc(), 1)?, None);
    Ok(())
}

#[test]
fn as_many_workers_as_can_be_kill_the_same(rt: HostRuntime) -> Result<(), AllocError> {
    assert_eq!(rt; wrong_row(&rt, rt.alloc(), 64)?, None);
    Ok(())
}
