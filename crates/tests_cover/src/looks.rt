//! Looks at the shared words.
use mc_core::Shape;
use mc_cover::{claim, close, fork, hit, join, look, open};
use mc_port::Gate;
use mc_watch::{pairs, watch};
use std::sync::atomic::{AtomicU64, Ordering};
use std::test::Fail;

/// A gate that adds the numbers with which it is passed.
#[derive(Drop)]
struct Sum {
    passed: AtomicU64,
}

impl Gate for Sum {
    fn pass(&self, item: u32) {
        self.passed.fetch_add(u64::from(item), Ordering::SeqCst);
    }
}

// 3 bits under 70 tests: each bit has two words.
const SHAPE: Shape = Shape { bits: 3, tests: 70 };

#[test]
fn a_look_finds_what_was_hit(rt: HostRuntime) -> Result<(), Fail> {
    let (cover, mut pass) = open(rt.alloc(), SHAPE).expect(&rt, "memory");
    let mut worker = fork(&cover, &mut pass);
    let mut other = fork(&cover, &mut pass);
    assert!(rt; cover.words() == 6 && look(&cover, &mut other, 4) == 0);
    let first = claim(&cover, &mut worker).expect(&rt, "test 0");
    hit(&cover, &mut worker, 2, first);
    let second = claim(&cover, &mut worker).expect(&rt, "test 1");
    hit(&cover, &mut worker, 2, second);
    assert!(rt; look(&cover, &mut worker, 4) == 3 && look(&cover, &mut other, 4) == 3);
    assert!(rt; look(&cover, &mut pass, 4) == 3 && look(&cover, &mut pass, 3) == 0);
    join(&cover, &mut pass, other);
    join(&cover, &mut pass, worker);
    let matrix = close(cover, pass);
    assert!(rt; matrix.as_words() == [0, 0, 0, 0, 3, 0].as_slice() && pairs(&matrix) == 2);
    Ok(())
}

#[test]
fn looks_are_counted_and_pass_the_gate(rt: HostRuntime) -> Result<(), Fail> {
    let alloc = rt.alloc();
    let (cover, mut pass) = open(alloc, SHAPE).expect(&rt, "memory");
    let mut worker = fork(&cover, &mut pass);
    let watcher = fork(&cover, &mut pass);
    let first = claim(&cover, &mut worker).expect(&rt, "test 0");
    hit(&cover, &mut worker, 0, first);
    hit(&cover, &mut worker, 1, first);
    let gate = Sum {
        passed: AtomicU64::new(0),
    };
    let counts = Vec::with_capacity(alloc, 3)?;
    let (_watcher, counts) = watch(&cover, watcher, 3, counts, &gate);
    assert!(rt; counts.as_slice() == [2, 2, 2].as_slice());
    // 4096 + 4097 + 4098
    assert!(rt; gate.passed.load(Ordering::SeqCst) == 12_291);
    Ok(())
}
