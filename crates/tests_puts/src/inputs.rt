//! Files that are cut off, or that nobody means well by.

use crate::run::{NONE, run_over};
use std::alloc::Global;
use std::thread::Threads;
use tests_memory::Fail;

/// A source with most of the forms that the grammar has.
const FLAP: &str = r#"# 1 "flap.c"
typedef enum { UP, TAKEOFF, LANDING } Lever;
typedef struct { int speed; _Bool ground; } Air;
extern int mcdc_in(void);
void mcdc_out(int angle);
static int angle;
static int target(Lever lever) {
  switch (lever) {
  case UP: return 0;
  case TAKEOFF: return 15;
  case LANDING: return 30;
  default: return 0;
  }
}
int cycle(int lever) {
  Air air;
  air.speed = mcdc_in();
  air.ground = mcdc_in();
  int want = target(lever);
  if (want > 15 && (air.speed > 160 || air.ground)) want = 15;
  if (angle < want) angle += 5;
  else if (angle > want) angle -= 5;
  mcdc_out(angle);
  return angle;
}
"#;

/// The words of its report, with tests and justifications.
const FLAP_REPORT: &str = "report|x|flap.csv|--justify|flap.json";

// Whether a first part of the source has a report where it has all but the last LF, and else is
// refused, or its tests are.
fn is_judged<R: Threads + Sync>(rt: &R, alloc: Global, length: usize) -> Result<bool, Fail> {
    let Some(part) = FLAP.as_bytes().get(..length) else {
        return Err(Fail);
    };
    let given = run_over(rt, alloc, FLAP_REPORT, part, NONE)?;
    let is_silent = given.out.puts() == 0 && given.diag.puts() == 1;
    let is_wanted = if length.saturating_add(1) >= FLAP.len() {
        given.status == 0 && given.diag.puts() == 0
    } else {
        (given.status == 3 || given.status == 4) && is_silent
    };
    drop(given);
    Ok(is_wanted)
}

#[test]
fn each_first_part_of_a_source(rt: HostRuntime) -> Result<(), Fail> {
    for length in 0..=FLAP.len() {
        assert!(rt; is_judged(&rt, rt.alloc(), length)?, "{length}");
    }
    Ok(())
}

/// A record whose last word has a bit beyond its three tests.
const SPARE: &[u8] = b"\
mcdc-record 2
source 8200d2384991a90c0fb5f6a208a7f0176cae5c6443e46177ef6bfd44c40d4caf
bits 6
tests 3
test t1 pass
test t2 pass
test t3 pass
bit 0 0000000000000007
bit 1 0000000000000007
bit 2 0000000000000007
bit 3 0000000000000001
bit 4 0000000000000002
bit 5 0000000000000008
end
";

const HEADER: &[u8] = b"test,call,arguments,inputs,expect,output\n";

const TESTS: &str = "vectors|s.c|x";

const SOURCE: &str = "vectors|x|t.csv";

/// The words, the bytes of `x` (a front, a part with how often it comes, and a back), the status,
/// and how the line ends.
static INPUTS: [(&str, (&[u8], &[u8], u32, &[u8]), u8, &[u8]); 6] = [
    (
        SOURCE,
        (b"int f(int a){return ", b"(", 100_000, b""),
        3,
        b": syntax\n",
    ),
    (
        SOURCE,
        (b"int f(int a,int b){return (a||b)", b"&&(a||b)", 31, b";}"),
        3,
        b"mcdc: source 1:27: too many paths 8589934591\n",
    ),
    (
        SOURCE,
        (b"", b" ", 1_048_577, b""),
        3,
        b"mcdc: x: longer than 1048576 bytes\n",
    ),
    (
        TESTS,
        (HEADER, b"t1,f,1 \xff,,,\n", 1, b""),
        4,
        b"mcdc: tests record 2: text\n",
    ),
    (
        TESTS,
        (HEADER, b"t1,f,1 1,\xff,,\n", 1, b""),
        4,
        b"mcdc: tests record 2: text\n",
    ),
    (
        "analyse|s.c|x",
        (SPARE, b"", 0, b""),
        4,
        b"mcdc: record x line 13: spare bit\n",
    ),
];

fn is_refused<R: Threads + Sync>(
    rt: &R,
    alloc: Global,
    words: &str,
    bytes: &[u8],
    status: u8,
    end: &[u8],
) -> Result<bool, Fail> {
    let given = run_over(rt, alloc, words, bytes, NONE)?;
    let is_silent = given.out.puts() == 0 && given.diag.puts() == 1;
    let has_end = given.diag.sink().bytes().ends_with(end);
    let is_wanted = given.status == status && is_silent && has_end;
    drop(given);
    Ok(is_wanted)
}

// Adds the part this number of times.
fn repeat(bytes: &mut Vec<u8>, part: &[u8], count: u32) -> Result<(), Fail> {
    for _turn in 0..count {
        bytes.extend_from_slice(part)?;
    }
    Ok(())
}

fn holds<R: Threads + Sync>(
    rt: &R,
    alloc: Global,
    words: &str,
    parts: (&[u8], &[u8], u32, &[u8]),
    want: (u8, &[u8]),
) -> Result<bool, Fail> {
    let (front, part, count, back) = parts;
    let (status, end) = want;
    let mut bytes = front.to_vec(alloc)?;
    repeat(&mut bytes, part, count)?;
    bytes.extend_from_slice(back)?;
    let is_wanted = is_refused(rt, alloc, words, bytes.as_slice(), status, end);
    drop(bytes);
    is_wanted
}

#[test]
fn inputs_that_are_refused(rt: HostRuntime) -> Result<(), Fail> {
    for (words, parts, status, end) in &INPUTS {
        let want = (*status, *end);
        assert!(rt; holds(&rt, rt.alloc(), words, *parts, want)?, "{words}");
    }
    Ok(())
}
