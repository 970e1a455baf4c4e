//! Laws of blocks. The function does nothing: its contract has the law.
ghost use Rattle.types_scopes.specs.Blocks.{EndsFunctionsAsDefined, LeavesAsDefined};

/// What `leave` and `leave_function` lead to is the end of a block, and of a function, that the
/// rules give for the scope around it.
pub fn blocks_end_as_defined()
    ensures blocks { LeavesAsDefined }
    ensures functions { EndsFunctionsAsDefined }
{}
