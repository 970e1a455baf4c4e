//! What each obligation needs.
ghost use Rattle.std.specs.Prelude.{◌≡◌, ℕ, ◌+◌, ◌<◌, ◌≤◌, length, get_or, slice_get, true, false, None, Some, IfOk};
ghost use Rattle.std.specs.Bool.{OnTrue};
ghost use Rattle.mc_cond.specs.Tree.{tree_of, size};
ghost use Rattle.mc_paths.specs.Paths.{count_of};
ghost use Rattle.mc_probe.specs.BitMaps.{map_of};
ghost use Rattle.mc_probe.specs.Mapped.{mapped_of};
ghost use Rattle.mc_oblige.specs.declared.obligation.Obligation.{Obligation};
ghost use Rattle.mc_needs.specs.Needs.{IsUnpaired};
ghost use Rattle.mc_needs.specs.Answer.{HasNeed};
ghost use Rattle.mc_needs.specs.steps.Marks.{IsMarked, HasTestAt, marks_in};
ghost use Rattle.mc_needs.specs.steps.Each.{IsProper, IsMissingBy, IsConditionNeedBy, IsNeedBy};

use crate::decision::decision_at;
use crate::outcome::least_with;
use crate::pairing::{Pairing, needed_pair};
use mc_oblige::{Mode, Obligation, ObligationId};
use mc_probe::{BitMap, MappedDecision};
use needed_paths::Need;
use std::alloc::{AllocError, Global};

/// What each obligation needs that is asked, if it is an outcome or a condition. `tests` has the
/// least tests of evaluated vectors at their bits, and `marks` says which bits have one.
pub(crate) fn all_needs(
    alloc: Global,
    map: &BitMap,
    tests: &[Option<u32>],
    marks: &[bool],
    mode: Mode,
    obligations: &[Obligation],
    asked: &[bool],
) -> Result<Vec<Option<Need>>, AllocError>
    requires bits { length marks.now ≡ map.now.bits }
    requires marks { marks.now ≡ marks_in tests.now }
    requires count { length asked.now ≡ length obligations.now }
    requires proper { (at : ℕ) (o : Obligation) → slice_get obligations.now at ≡ Some o →
        IsProper (map_of map.now) o.id }
    requires missing { (at : ℕ) (o : Obligation) → slice_get obligations.now at ≡ Some o →
        slice_get asked.now at ≡ Some true → IsMissingBy (map_of map.now) mode marks.now o.id }
    ensures count { IfOk result (λ v. length v.items ≡ length obligations.now) }
    ensures each { IfOk result (λ v. (at : ℕ) (o : Obligation) →
        slice_get obligations.now at ≡ Some o →
        HasNeed (IsNeedBy (map_of map.now) mode tests.now marks.now)
        (get_or asked.now at false) o.id (get_or v.items at None)) }
{
    let mut each = Vec::new(alloc);
    for (at, obligation) in obligations.iter().enumerate() {
        let need = need_if(alloc, map, tests, marks, mode, obligation.id, asked[at])?;
        each.push(need)?;
    }
    Ok(each)
}

/// What an obligation needs, if it is asked.
fn need_if(
    alloc: Global,
    map: &BitMap,
    tests: &[Option<u32>],
    marks: &[bool],
    mode: Mode,
    id: ObligationId,
    is_asked: bool,
) -> Result<Option<Need>, AllocError>
    requires bits { length marks.now ≡ map.now.bits }
    requires marks { marks.now ≡ marks_in tests.now }
    requires proper { IsProper (map_of map.now) id }
    requires missing { OnTrue is_asked (IsMissingBy (map_of map.now) mode marks.now id) }
    ensures { IfOk result (λ need.
        HasNeed (IsNeedBy (map_of map.now) mode tests.now marks.now) is_asked id need) }
{
    if !is_asked {
        return Ok(None);
    }
    match id {
        ObligationId::Outcome(d, outcome) => {
            let path = least_with(decision_at(map, d), outcome);
            Ok(Some(Need::Vector { path }))
        }
        ObligationId::Condition(d, k) => {
            let mapped = decision_at(map, d);
            let need = condition_need(alloc, mapped, tests, marks, mode, k)?;
            Ok(Some(need))
        }
        _ => Ok(None),
    }
}

/// What condition `k` needs.
fn condition_need(
    alloc: Global,
    mapped: &MappedDecision,
    tests: &[Option<u32>],
    marks: &[bool],
    mode: Mode,
    k: u32,
) -> Result<Need, AllocError>
    requires inside { mapped.now.base + count_of (tree_of mapped.now.decision.tree)
        ≤ length marks.now }
    requires marks { marks.now ≡ marks_in tests.now }
    requires condition { k < size (tree_of mapped.now.decision.tree) }
    requires missing { IsUnpaired mode (tree_of mapped.now.decision.tree) k
        (IsMarked marks.now mapped.now.base) }
    ensures { IfOk result
        (IsConditionNeedBy mode tests.now marks.now k (Some (mapped_of mapped.now))) }
{
    match needed_pair(alloc, mapped, marks, mode, k)? {
        Pairing::Beside { path, partner } => {
            let test = test_at(mapped, tests, partner);
            Ok(Need::Beside {
                path,
                partner,
                test,
            })
        }
        Pairing::Both { first, second } => Ok(Need::Both { first, second }),
    }
}

/// The test of a path that has one.
fn test_at(mapped: &MappedDecision, tests: &[Option<u32>], path: u32) -> u32
    requires { (t : ℕ) × HasTestAt tests.now (mapped.now.base + path) t }
    ensures { HasTestAt tests.now (mapped.now.base + path) result }
{
    match tests[mapped.base as usize + path as usize] {
        Some(test) => test,
        None => unreachable!(),
    }
}
