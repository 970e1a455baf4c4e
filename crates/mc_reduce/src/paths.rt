//! The paths of a decision that tests have.
ghost use Rattle.std.specs.Prelude.{◌≡◌, ◌+◌, ◌≤◌, ◌++◌, ◌∷◌, [], length, if◌then◌else◌, IfOk};
ghost use Rattle.mc_reduce.specs.steps.Counts.{HasCounts};
ghost use Rattle.mc_reduce.specs.steps.Loss.{IsCounted, IsLeft, along, ArePathsOn};

use crate::columns::held;
use std::alloc::{AllocError, Global};

/// Those of the paths with the bits from `base` on that some test has.
pub(crate) fn seen_paths(
    alloc: Global,
    counts: &[u32],
    base: u32,
    paths: u32,
) -> Result<Vec<u32>, AllocError>
    requires { base + paths ≤ length counts.now }
    ensures { IfOk result (λ v. ArePathsOn (along (IsCounted counts.now) base) paths v.items) }
{
    let mut seen = Vec::new(alloc);
    for path in 0..paths {
        let bit = base as usize + path as usize;
        push_if(&mut seen, path, counts[bit] > 0)?;
    }
    Ok(seen)
}

/// Those that some other test has.
pub(crate) fn paths_left(
    alloc: Global,
    counts: &[u32],
    words: &[u64],
    test: u32,
    base: u32,
    paths: u32,
) -> Result<Vec<u32>, AllocError>
    requires end { base + paths ≤ length counts.now }
    requires counts { HasCounts test counts.now words.now }
    ensures { IfOk result (λ v.
        ArePathsOn (along (IsLeft test counts.now words.now) base) paths v.items) }
{
    let mut seen = Vec::new(alloc);
    for path in 0..paths {
        let bit = base as usize + path as usize;
        push_if(&mut seen, path, counts[bit] > held(words[bit], test))?;
    }
    Ok(seen)
}

/// Appends the path, where it is meant.
fn push_if(seen: &mut Vec<u32>, path: u32, is_meant: bool) -> Result<(), AllocError>
    ensures { IfOk result (λ _. seen.new.items
        ≡ (if is_meant then seen.old.items ++ path ∷ [] else seen.old.items)) }
{
    if is_meant {
        seen.push(path)?;
    }
    Ok(())
}
