//! The paths that were seen.
ghost use Rattle.std.specs.Prelude.{◌≡◌, ◌≤◌, length, IfOk};
ghost use Rattle.mc_limits.specs.Limits.{most_paths};
ghost use Rattle.mc_oblige.specs.steps.Table.{AreSeenBelow, seen_with};

use std::alloc::{AllocError, Global};

/// The paths that have a test, in ascending order.
pub(crate) fn seen_paths(alloc: Global, tests: &[Option<u32>]) -> Result<Vec<u32>, AllocError>
    requires { length tests.now ≤ most_paths }
    ensures { IfOk result (λ v. AreSeenBelow tests.now (length tests.now) v.items) }
{
    let mut seen = Vec::new(alloc);
    for (path, test) in tests.iter().enumerate() {
        see(&mut seen, path as u32, *test)?;
    }
    Ok(seen)
}

/// Appends the path, where it has a test.
fn see(seen: &mut Vec<u32>, path: u32, test: Option<u32>) -> Result<(), AllocError>
    ensures { IfOk result (λ _. seen.new.items ≡ seen_with test path seen.old.items) }
{
    if test.is_none() {
        return Ok(());
    }
    seen.push(path)?;
    Ok(())
}
