//! Objects (C17 6.2.4).
ghost use Rattle.std.specs.Prelude.{◌≡◌, IfOk};
ghost use Rattle.mc_typed.specs.Layout.{object_type_of};

use mc_value::ObjType;
use std::alloc::AllocError;
use std::sync::Arc;

/// An object of a function with automatic storage duration: its type, how many cells it has, and
/// which cell of the frame is its first.
pub struct Object {
    pub object_type: ObjType,
    pub cells: u32,
    pub start: u32,
}

impl Drop for Object {
    fn drop(self) {
        let Self {
            object_type: _,
            cells: _,
            start: _,
        } = self;
    }
}

/// An object with static storage duration: its type, how many cells it has, which static cell is
/// its first, and the initial value of each of its cells.
pub struct StaticObject {
    pub object_type: ObjType,
    pub cells: u32,
    pub start: u32,
    pub initial: Vec<i128>,
}

impl Drop for StaticObject {
    fn drop(self) {
        let Self {
            object_type: _,
            cells: _,
            start: _,
            initial: _,
        } = self;
    }
}

/// The same type, which shares its parts with the one that is given.
pub fn share(object_type: &ObjType) -> Result<ObjType, AllocError>
    ensures { IfOk result (λ t. object_type_of t ≡ object_type_of object_type.now) }
{
    match object_type {
        ObjType::Int(of) => Ok(ObjType::Int(*of)),
        ObjType::Array { element, length } => {
            let element = Arc::try_clone(element)?;
            Ok(ObjType::Array {
                element,
                length: *length,
            })
        }
        ObjType::Struct { number, members } => {
            let members = Arc::try_clone(members)?;
            Ok(ObjType::Struct {
                number: *number,
                members,
            })
        }
    }
}
