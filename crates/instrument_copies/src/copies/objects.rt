//! Static objects and structure types of a copy.
ghost use Rattle.std.specs.Prelude.{◌≡◌, map, IfOk};
ghost use Rattle.mc_typed.specs.Layout.{object_type_of};
ghost use Rattle.mc_typed.specs.Views as plain;

use mc_typed::{StaticObject, share};
use mc_value::ObjType;
use std::alloc::{AllocError, Global};

fn static_object(alloc: Global, tree: &StaticObject) -> Result<StaticObject, AllocError>
    ensures { IfOk result (λ c. plain.static_of c ≡ plain.static_of tree.now) }
{
    let object_type = share(&tree.object_type)?;
    let mut initial = Vec::with_capacity(alloc, tree.initial.len())?;
    initial.extend_from_slice(&tree.initial)?;
    Ok(StaticObject {
        object_type,
        cells: tree.cells,
        start: tree.start,
        initial,
    })
}

/// Copies of static objects.
pub fn static_objects(
    alloc: Global,
    trees: &[StaticObject],
) -> Result<Vec<StaticObject>, AllocError>
    ensures { IfOk result (λ c. map plain.static_of c.items ≡ map plain.static_of trees.now) }
{
    let mut copies = Vec::with_capacity(alloc, trees.len())?;
    for tree in trees {
        let copy = static_object(alloc, tree)?;
        copies.push(copy)?;
    }
    Ok(copies)
}

/// Copies of structure types.
pub fn all_structures(alloc: Global, trees: &[ObjType]) -> Result<Vec<ObjType>, AllocError>
    ensures { IfOk result (λ c. map object_type_of c.items ≡ map object_type_of trees.now) }
{
    let mut copies = Vec::with_capacity(alloc, trees.len())?;
    for tree in trees {
        let copy = share(tree)?;
        copies.push(copy)?;
    }
    Ok(copies)
}
