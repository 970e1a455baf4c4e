//! Cells of structures.
ghost use Rattle.std.specs.Prelude.{◌≡◌, map};
ghost use Rattle.types_rules.specs.Types as types;
ghost use Rattle.types_scopes.specs.Views.{structure_of};

use crate::layouts::cells_of_base;
use crate::members::Structure;
use crate::types::Base;

/// How many cells an object has whose type is the structure type with this number, as far as 32
/// bits count them. Takes no memory.
pub fn structure_cells(structures: &[Structure<'_>], number: usize) -> u32
    ensures { result
        ≡ types.cells_of (map structure_of structures.now) (types.plain (types.Tagged number)) }
{
    cells_of_base(structures, Base::Tagged(number))
}
