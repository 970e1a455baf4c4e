//! Tests files for one program: faults, limits, and what plans hold.
use crate::programs::check_all;
use std::test::Fail;

#[test]
fn tests_files(rt: HostRuntime) -> Result<(), Fail> {
    let alloc = rt.alloc();
    check_all(&rt, alloc)
}
