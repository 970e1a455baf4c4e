//! Known schedules of two tests over two bits.
ghost use Rattle.std.specs.Prelude.{◌≡◌, ◌<◌, ◌^◌, All, length, vec_len};

use mc_core::{Shape, run_schedule};
use std::alloc::Global;
use std::process::Abort;
use std::test::Fail;

// A schedule, and what it leads to. A worker is its claimed tests, the bits that remain, and
// whether it ended.
struct Run<'a> {
    schedule: &'a [u32],
    draws: u32,
    words: [u64; 2],
    workers: &'a [(&'a [u32], u32, bool)],
}

fn check_runs(
    rt: &impl Abort,
    alloc: Global,
    scripts: &[Vec<u32>],
    runs: &[Run],
) -> Result<(), Fail>
    requires tests { length scripts.now ≡ 2 }
    requires scripts { All (λ v. (vec_len v < 2 ^ 31) × All (λ b. b < 2) v.items) scripts.now }
{
    let shape = Shape { bits: 2, tests: 2 };
    for run in runs {
        let count = run.workers.len();
        assert!(rt; 1 <= count && count <= 64 && run.schedule.len() < 100);
        let state = run_schedule(alloc, shape, scripts, count as u32, run.schedule)?;
        assert_eq!(rt; state.draws, run.draws);
        assert!(rt; state.matrix.as_words() == run.words.as_slice());
        for (worker, (claimed, rest, ended)) in state.workers.iter().zip(run.workers) {
            assert!(rt; worker.claimed.as_slice() == *claimed);
            assert_eq!(rt; (worker.rest, worker.ended), (*rest, *ended));
        }
    }
    Ok(())
}

/// Test 0 hits bit 0, and test 1 bit 1.
static ONE_BIT_EACH: [Run<'static>; 3] = [
    Run {
        schedule: &[0, 1, 0, 1, 0, 1],
        draws: 4,
        words: [1, 2],
        workers: &[(&[0], 0, true), (&[1], 0, true)],
    },
    Run {
        schedule: &[0, 0, 0, 0, 0],
        draws: 3,
        words: [1, 2],
        workers: &[(&[0, 1], 0, true), (&[], 0, false)],
    },
    // an unknown worker, and one that has ended
    Run {
        schedule: &[7, 0, 1, 0, 0, 2, 0, 0],
        draws: 3,
        words: [1, 0],
        workers: &[(&[0], 0, true), (&[1], 1, false)],
    },
];

/// Test 0 hits nothing, and test 1 hits bit 1 twice.
static NONE_AND_ONE_TWICE: [Run<'static>; 2] = [
    Run {
        schedule: &[0, 0, 0],
        draws: 2,
        words: [0, 2],
        workers: &[(&[0, 1], 1, false)],
    },
    Run {
        schedule: &[0, 0, 0, 0, 0],
        draws: 3,
        words: [0, 2],
        workers: &[(&[0, 1], 0, true)],
    },
];

#[test]
fn schedules_lead_to_one_matrix(rt: HostRuntime) -> Result<(), Fail> {
    let alloc = rt.alloc();
    let scripts = [vec![in alloc; 0]?, vec![in alloc; 1]?];
    check_runs(&rt, alloc, &scripts, &ONE_BIT_EACH)?;
    let scripts = [Vec::new(alloc), vec![in alloc; 1, 1]?];
    check_runs(&rt, alloc, &scripts, &NONE_AND_ONE_TWICE)
}
