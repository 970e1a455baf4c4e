//! Files of a store in memory.

use crate::fail::Fail;
use std::alloc::Global;

/// Adds a file with this name and these bytes.
pub fn push_file(
    alloc: Global,
    files: &mut Vec<(String, Vec<u8>)>,
    name: &str,
    bytes: &[u8],
) -> Result<(), Fail> {
    let name = String::from_str(alloc, name)?;
    files.push((name, bytes.to_vec(alloc)?))?;
    Ok(())
}
