//! The least test that kills each mutant.
ghost use Rattle.std.specs.Prelude.{◌≡◌, ◌<◌, ◌+◌, ◌*◌, ◌^◌, IfOk, length};
ghost use Rattle.mc_core.specs.Matrix.{Holds};
ghost use Rattle.mutate_lines.specs.Killers.{AreKillers, IsKiller, IsRecorded};

use mc_core::Matrix;
use std::alloc::{AllocError, Global};

/// The least of so many tests that kills each of so many mutants, in their order. Bit 0 of the
/// matrix is recorded under the item `mutant * tests + test` where the test kills the mutant, both
/// numbered from 0.
pub fn killers(
    alloc: Global,
    matrix: &Matrix,
    mutants: u32,
    tests: u32,
) -> Result<Vec<Option<u32>>, AllocError>
    requires { mutants * tests < 2 ^ 32 }
    ensures each { IfOk result (λ all.
        AreKillers (IsRecorded matrix.now tests) tests 0 all.items) }
    ensures count { IfOk result (λ all. length all.items ≡ mutants) }
{
    let mut all = Vec::new(alloc);
    for mutant in 0..mutants {
        all.push(killer(matrix, mutant * tests, tests))?;
    }
    Ok(all)
}

// The least of the tests whose items begin with this one and that kill the mutant.
fn killer(matrix: &Matrix, first: u32, tests: u32) -> Option<u32>
    requires { first + tests < 2 ^ 32 }
    ensures { IsKiller (λ test. Holds matrix.now 0 (first + test)) tests result }
{
    for test in 0..tests {
        if matrix.holds(0, first + test) {
            return Some(test);
        }
    }
    None
}
