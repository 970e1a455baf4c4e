//! The names of tests.
ghost use Rattle.std.specs.Prelude.{◌≡◌, ◌++◌, ◌<◌, length, OnOk};
ghost use Rattle.evidence_texts.specs.Names.{name_of, name_text};

use mc_typed::Name;
use std::alloc::AllocError;

/// The name of a test. Takes no memory.
pub fn name_of(names: &[Name], test: u32) -> &[u8]
    requires { test < length names.now }
    ensures { result.now ≡ name_of names.now test }
{
    names[test as usize].bytes()
}

/// Adds the name of a test after ` by `.
pub fn push_name(line: &mut Vec<u8>, names: &[Name], test: u32) -> Result<(), AllocError>
    requires { test < length names.now }
    ensures { OnOk result (line.new.items ≡ line.old.items ++ name_text names.now test) }
{
    line.extend_from_slice(b" by ")?;
    line.extend_from_slice(names[test as usize].bytes())
}
