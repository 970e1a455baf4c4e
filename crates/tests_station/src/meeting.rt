//! Two workers are inside tests at the same time.

use crate::run::{SOURCE, TESTS, gives_by, of_files};
use mc_cover::PlainCloser;
use mc_port::Gate;
use std::sync::atomic::{AtomicU64, Ordering};
use std::thread;
use tests_memory::Fail;

/// How often a worker looks whether the other one has come.
const TURNS: u32 = 50_000_000;

/// A gate that holds tests 0 and 1 until both have come. Each number has a bit for each test.
#[derive(Drop)]
struct Meeting {
    come: AtomicU64,
    /// Those that have met the other one.
    met: AtomicU64,
}

impl Meeting {
    fn new() -> Meeting {
        Meeting {
            come: AtomicU64::new(0),
            met: AtomicU64::new(0),
        }
    }

    // Whether both come before the turns are over.
    fn is_full(&self) -> bool {
        for _turn in 0..TURNS {
            if self.come.load(Ordering::SeqCst) == 3 {
                return true;
            }
            thread::yield_now();
        }
        false
    }
}

impl Gate for Meeting {
    fn pass(&self, item: u32) {
        if item < 2 {
            let bit = if item == 0 { 1 } else { 2 };
            self.come.fetch_or(bit, Ordering::SeqCst);
            if self.is_full() {
                self.met.fetch_or(bit, Ordering::SeqCst);
            }
        }
    }
}

const WORDS: &str = "vectors|s.c|t.csv|--workers|2";

const VECTORS: &str = "\
test t1 pass values 1 output
test t2 pass values 0 output
test t3 pass values 0 output
D1 TT=T by t1
D1 TF=F by t2
D1 F-=F by t3
";

#[test]
fn two_workers_meet(rt: HostRuntime) -> Result<(), Fail> {
    let setting = of_files(WORDS, SOURCE.as_bytes(), TESTS.as_bytes(), b"[]");
    let gate = Meeting::new();
    let want = (0, VECTORS.as_bytes(), b"".as_slice());
    let is_given = gives_by(&rt, rt.alloc(), &setting, &gate, &PlainCloser, want)?;
    let met = gate.met.load(Ordering::SeqCst);
    assert!(rt; is_given && met == 3, "{met}");
    Ok(())
}
