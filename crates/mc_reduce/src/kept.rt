//! The tests that are kept.
ghost use Rattle.std.specs.Prelude.{◌≡◌, [], length, IfOk};
ghost use Rattle.std.specs.Bool.{OnTrue, OnFalse};
ghost use Rattle.std.specs.List.{AllZip};
ghost use Rattle.mc_probe.specs.BitMaps.{map_of};
ghost use Rattle.mc_oblige.specs.Shown.{HasEvent};
ghost use Rattle.mc_reduce.specs.Kept.{AreKept, IsFirstLost, IsReduced};
ghost use Rattle.mc_reduce.specs.Laws.{ShowTheSame};
ghost use Rattle.mc_reduce.specs.steps.Counts.{AreCounts, HasCounts};
ghost use Rattle.mc_reduce.specs.steps.Loss.{IsCounted, IsLeft, AreShown, SomeMissed, NoneMissed};

use crate::columns::Columns;
use crate::counts::{counts, lower};
use crate::hint::Hints;
use crate::loss::{first_lost, lost_without};
use crate::reduced::Reduced;
use crate::shown::{all_shown, events};
use mc_core::Matrix;
use mc_oblige::Mode;
use mc_probe::BitMap;
use std::alloc::{AllocError, Global};

/// The suite without the tests that it can do without. From the last test to the first, a test is
/// dropped where each obligation that the whole matrix shows is shown by the others that are still
/// kept. So none of those that stay can be dropped, and the obligations that are shown are the
/// same. That no other choice keeps fewer tests is not said.
///
/// What a test shows is judged again only where a bit is lost with it.
pub fn reduce(
    alloc: Global,
    map: &BitMap,
    matrix: &Matrix,
    mode: Mode,
) -> Result<Reduced, AllocError>
    requires bits { matrix.now.shape.bits ≡ map.now.bits }
    ensures reduced { IfOk result (λ r. let m = map_of map.now in
        IsReduced (HasEvent m matrix.now) m mode matrix.now.shape.tests
        r.kept.items r.lost.items) }
    ensures same { IfOk result (λ r. let m = map_of map.now in
        ShowTheSame (HasEvent m matrix.now) m mode r.kept.items) }
{
    let mut counts = counts(alloc, matrix)?;
    let mut hints = Hints::new(alloc, events(map))?;
    let shown = all_shown(alloc, map, &counts, &mut hints, mode)?;
    let kept = kept_tests(alloc, map, matrix, &mut counts, &shown, &mut hints, mode)?;
    let lost = all_lost(alloc, map, matrix, &counts, &shown, &kept, &mut hints, mode)?;
    Ok(Reduced { kept, lost })
}

/// The tests that stay, and the counts of their bits.
fn kept_tests(
    alloc: Global,
    map: &BitMap,
    matrix: &Matrix,
    counts: &mut [u32],
    shown: &[bool],
    hints: &mut Hints,
    mode: Mode,
) -> Result<Vec<u32>, AllocError>
    requires bits { matrix.now.shape.bits ≡ map.now.bits }
    requires counts { AreCounts matrix.now matrix.now.shape.tests [] counts.old }
    requires shown { AreShown (map_of map.now) mode (IsCounted counts.old) shown.now }
    ensures kept { IfOk result (λ v. let m = map_of map.now in
        AreKept (HasEvent m matrix.now) m mode matrix.now.shape.tests v.items) }
    ensures counts { IfOk result (λ v. AreCounts matrix.now 0 v.items counts.new) }
    ensures shown { IfOk result (λ _.
        AreShown (map_of map.now) mode (IsCounted counts.new) shown.now) }
{
    let mut kept = Vec::new(alloc);
    let mut left = matrix.shape().tests;
    if left == 0 {
        return Ok(kept);
    }
    let mut columns = Columns::new(alloc, matrix, (left - 1) as usize / 64)?;
    'turns: while left > 0 {
        left -= 1;
        columns.turn_to(matrix, left)?;
        if is_needed(
            alloc,
            map,
            counts,
            columns.words(),
            left,
            shown,
            hints,
            mode,
        )? {
            kept.push(left)?;
        } else {
            lower(counts, columns.words(), left);
        }
    }
    kept.reverse();
    Ok(kept)
}

/// Whether an obligation is lost without the test.
fn is_needed(
    alloc: Global,
    map: &BitMap,
    counts: &[u32],
    words: &[u64],
    test: u32,
    shown: &[bool],
    hints: &mut Hints,
    mode: Mode,
) -> Result<bool, AllocError>
    requires bits { length counts.now ≡ map.now.bits }
    requires counts { HasCounts test counts.now words.now }
    requires shown { AreShown (map_of map.now) mode (IsCounted counts.now) shown.now }
    ensures needed { IfOk result (λ is. OnTrue is (SomeMissed (map_of map.now) mode
        (IsCounted counts.now) (IsLeft test counts.now words.now))) }
    ensures other { IfOk result (λ is. OnFalse is (NoneMissed (map_of map.now) mode
        (IsCounted counts.now) (IsLeft test counts.now words.now))) }
{
    match first_lost(alloc, map, counts, words, test, shown, hints, mode)? {
        Some(_) => Ok(true),
        None => Ok(false),
    }
}

/// What is lost without each of the kept tests.
fn all_lost(
    alloc: Global,
    map: &BitMap,
    matrix: &Matrix,
    counts: &[u32],
    shown: &[bool],
    kept: &[u32],
    hints: &mut Hints,
    mode: Mode,
) -> Result<Vec<u32>, AllocError>
    requires bits { matrix.now.shape.bits ≡ map.now.bits }
    requires kept { let m = map_of map.now in
        AreKept (HasEvent m matrix.now) m mode matrix.now.shape.tests kept.now }
    requires counts { AreCounts matrix.now 0 kept.now counts.now }
    requires shown { AreShown (map_of map.now) mode (IsCounted counts.now) shown.now }
    ensures { IfOk result (λ v. let m = map_of map.now in
        AllZip (IsFirstLost (HasEvent m matrix.now) m mode kept.now) kept.now v.items) }
{
    let mut lost = Vec::new(alloc);
    if matrix.shape().tests == 0 {
        return Ok(lost);
    }
    let mut columns = Columns::new(alloc, matrix, 0)?;
    for test in kept {
        columns.turn_to(matrix, *test)?;
        let words = columns.words();
        lost.push(lost_without(alloc, map, counts, words, *test, shown, hints, mode)?)?;
    }
    Ok(lost)
}
