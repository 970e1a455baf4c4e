//! The evaluated paths of decisions.
ghost use Rattle.std.specs.Prelude.{◌≡◌, ◌≤◌, ◌++◌, length, IfOk, OnOk};
ghost use Rattle.mc_limits.specs.Limits.{most_paths};
ghost use Rattle.mc_probe.specs.BitMaps.{map_of};
ghost use Rattle.mc_oblige.specs.Shown.{HasEvent};
ghost use Rattle.mc_oblige.specs.Evaluated.{AreEvaluated};
ghost use Rattle.mc_oblige.specs.steps.Tested.{tested_at, tested};

use crate::paths::path_tests;
use crate::table::least_tests;
use mc_core::Matrix;
use mc_probe::BitMap;
use std::alloc::{AllocError, Global};

/// A decision and the number of a path whose vector is evaluated, with the least test.
#[derive(Clone, Copy, Debug, PartialEq, Eq)]
pub struct EvaluatedPath {
    pub decision: u32,
    pub path: u32,
    pub test: u32,
}

/// The evaluated paths of the map's decisions, each with its least test: the decisions in their
/// order, and the paths of each in ascending order. An event is one that stands under a test where
/// the matrix holds its bit under this test.
pub fn evaluated_paths(
    alloc: Global,
    map: &BitMap,
    matrix: &Matrix,
) -> Result<Vec<EvaluatedPath>, AllocError>
    requires bits { matrix.now.shape.bits ≡ map.now.bits }
    ensures { IfOk result (λ v. let m = map_of map.now in
        AreEvaluated (HasEvent m matrix.now) m v.items) }
{
    let tests = least_tests(alloc, matrix)?;
    let mut found = Vec::new(alloc);
    for (d, mapped) in map.decisions.iter().enumerate() {
        let paths = path_tests(alloc, mapped, &tests)?;
        add_paths(&mut found, d as u32, &paths)?;
    }
    Ok(found)
}

/// Appends the paths of decision `d` that have a test.
fn add_paths(
    found: &mut Vec<EvaluatedPath>,
    d: u32,
    tests: &[Option<u32>],
) -> Result<(), AllocError>
    requires { length tests.now ≤ most_paths }
    ensures { OnOk result (found.new.items ≡ found.old.items ++ tested d 0 tests.now) }
{
    for (path, test) in tests.iter().enumerate() {
        add_path(found, d, path as u32, *test)?;
    }
    Ok(())
}

/// Appends the path, where it has a test.
fn add_path(
    found: &mut Vec<EvaluatedPath>,
    decision: u32,
    path: u32,
    test: Option<u32>,
) -> Result<(), AllocError>
    ensures { OnOk result (found.new.items ≡ found.old.items ++ tested_at decision path test) }
{
    let Some(test) = test else {
        return Ok(());
    };
    found.push(EvaluatedPath {
        decision,
        path,
        test,
    })?;
    Ok(())
}
