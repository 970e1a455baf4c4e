//! What `watch` writes. What a look counts may differ from run to run; how much is recorded at the
//! end was counted by hand.

use crate::run::{HEADER, SOURCE, TESTS, of_files, output_by};
use mc_cover::{Closer, PlainCloser, SkippingCloser};
use mc_port::{Gate, OpenGate};
use std::alloc::Global;
use std::sync::atomic::{AtomicU64, Ordering};
use std::thread;
use std::thread::Threads;
use tests_memory::Fail;

/// One that does not pass counts as any other.
const FAILED: &str = "\
test,call,arguments,inputs,expect,output
t1,f,1 1,,0,
";

/// Words, the tests, the status, how many looks there are, how much is recorded at the end, and
/// the last line. A test of `a&&b` records the entry, the exit, the statement and its path, and the
/// program has six bits.
static ROWS: [(&str, &str, u8, u32, u32, &str); 9] = [
    (
        "watch|s.c|t.csv|--looks|1",
        TESTS,
        0,
        1,
        12,
        "end recorded 12 of 18",
    ),
    (
        "watch|s.c|t.csv|--looks=1|--workers=1",
        TESTS,
        0,
        1,
        12,
        "end recorded 12 of 18",
    ),
    ("watch|s.c|t.csv", TESTS, 0, 10, 12, "end recorded 12 of 18"),
    (
        "watch|s.c|t.csv|--looks|100",
        TESTS,
        0,
        100,
        12,
        "end recorded 12 of 18",
    ),
    (
        "watch|--looks=100|s.c|t.csv|--workers|63|--fuel|8",
        TESTS,
        0,
        100,
        12,
        "end recorded 12 of 18",
    ),
    (
        "watch|s.c|t.csv|--looks|1",
        HEADER,
        0,
        1,
        0,
        "end recorded 0 of 0",
    ),
    ("watch|s.c|t.csv", HEADER, 0, 10, 0, "end recorded 0 of 0"),
    (
        "watch|s.c|t.csv|--looks|2",
        FAILED,
        1,
        2,
        4,
        "end recorded 4 of 6",
    ),
    (
        "watch|s.c|t.csv|--workers|63",
        FAILED,
        1,
        10,
        4,
        "end recorded 4 of 6",
    ),
];

// The number that stands between these two texts, where the line is no more.
fn number_in(line: &str, before: &str, after: &str) -> Option<u32> {
    let rest = line.strip_prefix(before)?;
    let digits = rest.strip_suffix(after)?;
    digits.parse::<u32>().ok()
}

// What the line of this look counts. `all` is the end of the line.
fn count_in(alloc: Global, line: &str, look: u32, all: &str) -> Result<Option<u32>, Fail> {
    let before = format!(in alloc; "look {look} recorded ")?;
    let count = number_in(line, before.as_str(), all);
    drop(before);
    Ok(count)
}

// Whether there is this number of lines of looks, no count is less than the one before or more than
// what is recorded at the end, and only the last line follows.
fn are_looks(
    alloc: Global,
    text: &str,
    looks: u32,
    recorded: u32,
    last: &str,
) -> Result<bool, Fail> {
    let Some((_, rest)) = last.split_once(" of ") else {
        return Err(Fail);
    };
    let all = format!(in alloc; " of {rest}")?;
    let mut lines = text.lines();
    let mut least = 0;
    let mut right = text.ends_with('\n');
    for made in 0..looks {
        let line = lines.next().unwrap_or("");
        match count_in(alloc, line, made + 1, all.as_str())? {
            Some(count) => {
                right = right && least <= count && count <= recorded;
                least = count;
            }
            None => right = false,
        }
    }
    drop(all);
    Ok(right && lines.next() == Some(last) && lines.next().is_none())
}

// Whether the bytes are a text of such lines.
fn are_written(
    alloc: Global,
    out: &[u8],
    looks: u32,
    recorded: u32,
    last: &str,
) -> Result<bool, Fail> {
    match str::from_utf8(out) {
        Ok(text) => are_looks(alloc, text, looks, recorded, last),
        Err(_) => Ok(false),
    }
}

fn is_row<R: Threads + Sync, C: Closer>(
    rt: &R,
    alloc: Global,
    row: &(&str, &str, u8, u32, u32, &str),
    closer: &C,
) -> Result<bool, Fail> {
    let (words, tests, status, looks, recorded, last) = *row;
    let setting = of_files(words, SOURCE.as_bytes(), tests.as_bytes(), b"[]");
    let out = output_by(rt, alloc, &setting, &OpenGate::new(), closer, status)?;
    let is_right = are_written(alloc, &out, looks, recorded, last);
    drop(out);
    is_right
}

#[test]
fn looks_are_written(rt: HostRuntime) -> Result<(), Fail> {
    for row in &ROWS {
        assert!(rt; is_row(&rt, rt.alloc(), row, &PlainCloser)?, "{}", row.0);
    }
    Ok(())
}

// What is recorded counts whatever a closer would leave out.
#[test]
fn no_test_is_left_out(rt: HostRuntime) -> Result<(), Fail> {
    let closer = SkippingCloser {
        skipped: [0_u32].to_vec(rt.alloc())?,
    };
    let is_right = is_row(&rt, rt.alloc(), &ROWS[0], &closer);
    drop(closer);
    assert!(rt; is_right?);
    Ok(())
}

/// How often the one who waits looks whether the other one has come.
const TURNS: u32 = 50_000_000;

/// The numbers with which the watcher passes after its first two looks.
const FIRST_LOOK: u32 = 4_096;

const SECOND_LOOK: u32 = 4_097;

/// A gate between the looks and the only worker: the first look waits until the second test has
/// been claimed, and the second test until the second look is over.
#[derive(Drop)]
struct Turns {
    /// 1 once the second test has been claimed, and 2 more once the second look is over.
    come: AtomicU64,
    /// The same of those who came while the other one waited.
    met: AtomicU64,
}

impl Turns {
    fn new() -> Turns {
        Turns {
            come: AtomicU64::new(0),
            met: AtomicU64::new(0),
        }
    }

    // Waits for the one who has this bit, until the turns are over.
    fn wait_for(&self, bit: u64) {
        for _turn in 0..TURNS {
            if self.come.load(Ordering::SeqCst) & bit != 0 {
                self.met.fetch_or(bit, Ordering::SeqCst);
                return;
            }
            thread::yield_now();
        }
    }
}

impl Gate for Turns {
    fn pass(&self, item: u32) {
        match item {
            FIRST_LOOK => self.wait_for(1),
            1 => {
                self.come.fetch_or(1, Ordering::SeqCst);
                self.wait_for(2);
            }
            SECOND_LOOK => {
                self.come.fetch_or(2, Ordering::SeqCst);
            }
            _ => {}
        }
    }
}

const TWO_LOOKS: &str = "watch|s.c|t.csv|--workers|1|--looks|2";

// Whether the second look counted what the first test records, and the first look at most as much.
fn is_amid(alloc: Global, out: &[u8]) -> Result<bool, Fail> {
    let Ok(text) = str::from_utf8(out) else {
        return Ok(false);
    };
    let is_second = text.ends_with("\nlook 2 recorded 4 of 18\nend recorded 12 of 18\n");
    Ok(is_second && are_looks(alloc, text, 2, 12, "end recorded 12 of 18")?)
}

// The first test is run before the second look, and the second one after it.
#[test]
fn a_look_comes_while_a_worker_runs(rt: HostRuntime) -> Result<(), Fail> {
    let setting = of_files(TWO_LOOKS, SOURCE.as_bytes(), TESTS.as_bytes(), b"[]");
    let gate = Turns::new();
    let out = output_by(&rt, rt.alloc(), &setting, &gate, &PlainCloser, 0)?;
    let met = gate.met.load(Ordering::SeqCst);
    let is_right = is_amid(rt.alloc(), &out);
    drop(out);
    assert!(rt; is_right? && met == 3, "{met}");
    Ok(())
}
