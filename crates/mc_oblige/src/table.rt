//! The least tests of bits.
ghost use Rattle.std.specs.Prelude.{◌≡◌, map, length, IfOk};
ghost use Rattle.mc_oblige.specs.steps.Table.{AreLeast, evidence_of};

use crate::verdict::Evidence;
use mc_core::Matrix;
use std::alloc::{AllocError, Global};

/// The least test of each bit, where it has one.
pub(crate) fn least_tests(alloc: Global, matrix: &Matrix) -> Result<Vec<Option<u32>>, AllocError>
    ensures count { IfOk result (λ v. length v.items ≡ matrix.now.shape.bits) }
    ensures each { IfOk result (λ v. AreLeast matrix.now 0 v.items) }
{
    let mut tests = Vec::new(alloc);
    for bit in 0..matrix.shape().bits {
        tests.push(matrix.least_test(bit))?;
    }
    Ok(tests)
}

/// The evidence of obligations that one bit each shows.
pub(crate) fn test_evidence(
    alloc: Global,
    tests: &[Option<u32>],
) -> Result<Vec<Evidence>, AllocError>
    ensures { IfOk result (λ v. v.items ≡ map evidence_of tests.now) }
{
    tests.iter().map(|test| one_or_absent(*test)).collect(alloc)
}

/// The evidence where one test is enough.
pub(crate) fn one_or_absent(test: Option<u32>) -> Evidence
    ensures { result ≡ evidence_of test }
{
    match test {
        Some(test) => Evidence::One { test },
        None => Evidence::Absent,
    }
}
