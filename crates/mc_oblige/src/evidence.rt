//! The evidence of all obligations.
ghost use Rattle.std.specs.Prelude.{◌≡◌, IfOk};
ghost use Rattle.mc_probe.specs.BitMaps.{map_of};
ghost use Rattle.mc_probe.specs.Maps as maps;
ghost use Rattle.mc_oblige.specs.Obligations.{obligations_of};
ghost use Rattle.mc_oblige.specs.Shown.{HasEvent};
ghost use Rattle.mc_oblige.specs.steps.Found.{AreEvidence};

use crate::decisions::decision_evidence;
use crate::paths::path_tests;
use crate::table::{least_tests, test_evidence};
use crate::verdict::Evidence;
use mc_core::Matrix;
use mc_probe::BitMap;
use report_options::Mode;
use std::alloc::{AllocError, Global};

/// The evidence of each obligation of the map, in order.
pub(crate) fn all_evidence(
    alloc: Global,
    map: &BitMap,
    matrix: &Matrix,
    mode: Mode,
) -> Result<Vec<Evidence>, AllocError>
    requires { matrix.now.shape.bits ≡ map.now.bits }
    ensures { IfOk result (λ v. let m = map_of map.now in
        AreEvidence (HasEvent m matrix.now) m mode (obligations_of m) v.items) }
{
    let tests = least_tests(alloc, matrix)?;
    let mut found = test_evidence(alloc, &tests[..first_path(map)])?;
    for mapped in &map.decisions {
        let paths = path_tests(alloc, mapped, &tests)?;
        let own = decision_evidence(alloc, mapped, &paths, mode)?;
        found.extend_from_slice(&own)?;
    }
    Ok(found)
}

/// The bit of the first path.
fn first_path(map: &BitMap) -> usize
    ensures { result ≡ maps.first_path (map_of map.now) }
{
    map.entries.len() + map.exits.len() + map.statements.len() + map.labels.len()
}
