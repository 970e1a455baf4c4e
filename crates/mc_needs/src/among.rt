//! Lists of a decision's paths, in ascending order.
ghost use Rattle.std.specs.Prelude.{◌≡◌, ◌+◌, ◌<◌, ◌≤◌, ◌↔◌, ◌++◌, ◌∷◌, [], length, if◌then◌else◌, IfOk, IsTrue};
ghost use Rattle.mc_cond.specs.Tree.{tree_of, size};
ghost use Rattle.mc_paths.specs.Paths.{count_of};
ghost use Rattle.mc_needs.specs.steps.Marks.{IsMarked};
ghost use Rattle.mc_needs.specs.steps.Among.{AreAmong, IsAny, IsMember};

use mc_pairs::has_influence_as;
use mc_probe::MappedDecision;
use std::alloc::{AllocError, Global};

/// All paths below a count.
pub(crate) fn all_paths(alloc: Global, count: u32) -> Result<Vec<u32>, AllocError>
    ensures { IfOk result (λ v. AreAmong IsAny count v.items) }
{
    let mut paths = Vec::new(alloc);
    for path in 0..count {
        push_if(&mut paths, path, true)?;
    }
    Ok(paths)
}

/// The marked paths, and those in which condition `k` has this value, and influence.
pub(crate) fn with_influence(
    alloc: Global,
    mapped: &MappedDecision,
    marks: &[bool],
    k: u32,
    value: bool,
) -> Result<Vec<u32>, AllocError>
    requires marks { mapped.now.base + count_of (tree_of mapped.now.decision.tree)
        ≤ length marks.now }
    requires condition { k < size (tree_of mapped.now.decision.tree) }
    ensures { IfOk result (λ v. let t = tree_of mapped.now.decision.tree in
        AreAmong (IsMember t marks.now mapped.now.base k value) (count_of t) v.items) }
{
    let mut paths = Vec::new(alloc);
    for path in 0..mapped.numbering.count() {
        let is_meant = is_member(mapped, marks, path, k, value);
        push_if(&mut paths, path, is_meant)?;
    }
    Ok(paths)
}

/// The marked paths.
pub(crate) fn marked_paths(
    alloc: Global,
    mapped: &MappedDecision,
    marks: &[bool],
) -> Result<Vec<u32>, AllocError>
    requires { mapped.now.base + count_of (tree_of mapped.now.decision.tree) ≤ length marks.now }
    ensures { IfOk result (λ v. let t = tree_of mapped.now.decision.tree in
        AreAmong (IsMarked marks.now mapped.now.base) (count_of t) v.items) }
{
    let mut paths = Vec::new(alloc);
    for path in 0..mapped.numbering.count() {
        let is_meant = is_marked(mapped, marks, path);
        push_if(&mut paths, path, is_meant)?;
    }
    Ok(paths)
}

/// Whether the path is marked.
pub(crate) fn is_marked(mapped: &MappedDecision, marks: &[bool], path: u32) -> bool
    requires { mapped.now.base + path < length marks.now }
    ensures { IsTrue result ↔ IsMarked marks.now mapped.now.base path }
{
    marks[mapped.base as usize + path as usize]
}

fn is_member(mapped: &MappedDecision, marks: &[bool], path: u32, k: u32, value: bool) -> bool
    requires path { mapped.now.base + path < length marks.now }
    requires condition { k < size (tree_of mapped.now.decision.tree) }
    ensures { IsTrue result ↔ IsMember (tree_of mapped.now.decision.tree) marks.now mapped.now.base
        k value path }
{
    if is_marked(mapped, marks, path) {
        return true;
    }
    has_influence_as(&mapped.numbering, path, k, value)
}

/// Appends the path, where it is meant.
fn push_if(paths: &mut Vec<u32>, path: u32, is_meant: bool) -> Result<(), AllocError>
    ensures { IfOk result (λ _. paths.new.items
        ≡ (if is_meant then paths.old.items ++ path ∷ [] else paths.old.items)) }
{
    if is_meant {
        paths.push(path)?;
    }
    Ok(())
}
