//! The vectors that are evaluated, by the bits of their paths.
ghost use Rattle.std.specs.Prelude.{◌≡◌, Contains, IfOk};
ghost use Rattle.mc_oblige.specs.declared.evaluated.EvaluatedPath.{EvaluatedPath};
ghost use Rattle.mc_probe.specs.BitMaps.{map_of};
ghost use Rattle.mc_needs.specs.steps.Marks.{marks_in, IsPathIn, AreTestsIn};

use crate::decision::decision_at;
use mc_oblige::EvaluatedPath;
use mc_probe::BitMap;
use std::alloc::{AllocError, Global};

/// The least test of each vector that is evaluated, at its bit.
pub(crate) fn tests_of(
    alloc: Global,
    map: &BitMap,
    evaluated: &[EvaluatedPath],
) -> Result<Vec<Option<u32>>, AllocError>
    requires { (e : EvaluatedPath) → Contains evaluated.now e → IsPathIn (map_of map.now) e }
    ensures { IfOk result (λ v. AreTestsIn (map_of map.now) evaluated.now v.items) }
{
    let mut tests = vec![in alloc; None; map.bits as usize]?;
    for path in evaluated {
        let mapped = decision_at(map, path.decision);
        tests[mapped.base as usize + path.path as usize] = Some(path.test);
    }
    Ok(tests)
}

/// A mark at each bit that has a test.
pub(crate) fn marks_of(alloc: Global, tests: &[Option<u32>]) -> Result<Vec<bool>, AllocError>
    ensures { IfOk result (λ v. v.items ≡ marks_in tests.now) }
{
    tests.iter().map(|test| test.is_some()).collect(alloc)
}
