//! Verdicts on all obligations.
ghost use Rattle.std.specs.Prelude.{◌≡◌, ◌<◌, map, length, All, vec_len, IfOk};
ghost use Rattle.mc_probe.specs.BitMaps.{map_of};
ghost use Rattle.mc_oblige.specs.Obligations.{obligations_of};
ghost use Rattle.mc_oblige.specs.Shown.{HasEvent};
ghost use Rattle.mc_oblige.specs.Verdicts.{NameEachOnce, AreVerdicts};
ghost use Rattle.mc_oblige.specs.steps.Named.{unnamed, all_named};

use crate::evidence::all_evidence;
use crate::justification::Justification;
use crate::verdict::{Evidence, Verdict};
use mc_core::Matrix;
use mc_probe::BitMap;
use report_options::Mode;
use std::alloc::{AllocError, Global};

/// The verdicts on the obligations of the map, in their order. An event is one that stands under a
/// test where the matrix holds its bit under this test.
pub fn judge(
    alloc: Global,
    map: &BitMap,
    matrix: &Matrix,
    mode: Mode,
    justified: &[Justification],
) -> Result<Vec<Verdict>, AllocError>
    requires bits { matrix.now.shape.bits ≡ map.now.bits }
    requires positions { All (λ j. j.obligation < length (obligations_of (map_of map.now)))
        justified.now }
    requires once { NameEachOnce justified.now }
    ensures { IfOk result (λ v. let m = map_of map.now in
        AreVerdicts (HasEvent m matrix.now) m mode justified.now v.items) }
{
    let found = all_evidence(alloc, map, matrix, mode)?;
    let mut verdicts = unnamed_verdicts(alloc, &found)?;
    justify_all(alloc, &mut verdicts, justified)?;
    Ok(verdicts)
}

/// The verdicts where no justification names an obligation.
fn unnamed_verdicts(alloc: Global, found: &[Evidence]) -> Result<Vec<Verdict>, AllocError>
    ensures { IfOk result (λ v. v.items ≡ map unnamed found.now) }
{
    found
        .iter()
        .map(|evidence| Verdict::unnamed(*evidence))
        .collect(alloc)
}

/// Names the obligations of the justifications.
fn justify_all(
    alloc: Global,
    verdicts: &mut Vec<Verdict>,
    justified: &[Justification],
) -> Result<(), AllocError>
    requires { All (λ j. j.obligation < vec_len verdicts.old) justified.now }
    ensures { IfOk result (λ _. verdicts.new.items ≡ all_named verdicts.old.items justified.now) }
{
    for justification in justified {
        let reason = justification.reason.copied(alloc)?;
        verdicts[justification.obligation as usize].justify(reason);
    }
    Ok(())
}
