//! What the missing obligations of a program need.
ghost use Rattle.std.specs.Prelude.{◌≡◌, IfOk};
ghost use Rattle.mc_probe.specs.BitMaps.{map_of};
ghost use Rattle.mc_oblige.specs.Shown.{HasEvent};
ghost use Rattle.mc_needs.specs.Asked.{AreMissing};
ghost use Rattle.needed_paths.specs.Seen.{needs_of};
ghost use Rattle.mc_needs.specs.Answer.{AreNeeds};

use crate::each::all_needs;
use crate::marks::{marks_of, tests_of};
use crate::wanting::all_wanted;
use mc_core::Matrix;
use mc_oblige::{Mode, evaluated_paths, obligations};
use mc_probe::BitMap;
use needed_paths::Needs;
use std::alloc::{AllocError, Global};

/// What each asked outcome and condition needs, and the vectors that are wanted for all of them.
/// `asked` has one entry for each obligation, in order, and each that is asked is missing. An event
/// is one that stands under a test where the matrix holds its bit under this test.
pub fn needs(
    alloc: Global,
    map: &BitMap,
    matrix: &Matrix,
    mode: Mode,
    asked: &[bool],
) -> Result<Needs, AllocError>
    requires bits { matrix.now.shape.bits ≡ map.now.bits }
    requires asked { let m = map_of map.now in
        AreMissing (HasEvent m matrix.now) m mode asked.now }
    ensures { IfOk result (λ n. let m = map_of map.now in
        AreNeeds (HasEvent m matrix.now) m mode asked.now (needs_of n)) }
{
    let obligations = obligations(alloc, map)?;
    let evaluated = evaluated_paths(alloc, map, matrix)?;
    let tests = tests_of(alloc, map, &evaluated)?;
    let marks = marks_of(alloc, &tests)?;
    let each = all_needs(alloc, map, &tests, &marks, mode, &obligations, asked)?;
    let wanted = all_wanted(alloc, map, marks, mode, &obligations, asked)?;
    Ok(Needs { each, wanted })
}
