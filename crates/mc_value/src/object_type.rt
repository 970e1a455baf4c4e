//! Types of objects.

ghost use Rattle.std.specs.Prelude.{◌≡◌, ◌≤◌, map, sum};
ghost use Rattle.mc_value.specs.ObjectTypes.{cells_of, most_cells};

use crate::int_type::IntType;
use std::sync::Arc;

/// How many scalars an object has at most.
pub const MOST_CELLS: u32 = 65_536;

/// The type of an object (C17 6.2.5). Types that are made of one type share it.
pub enum ObjType {
    /// A scalar.
    Int(IntType),
    /// An array of `length` elements.
    Array {
        element: Arc<ObjType>,
        length: u32,
    },
    /// The structure type with this number, and the types of its members in their order.
    Struct {
        number: u32,
        members: Arc<Vec<ObjType>>,
    },
}

impl Drop for ObjType {
    fn drop(self) {
        match self {
            ObjType::Int(_)
            | ObjType::Array {
                element: _,
                length: _,
            }
            | ObjType::Struct {
                number: _,
                members: _,
            } => {}
        }
    }
}

/// How many scalars an object of the type consists of.
#[cycle(cells)]
pub fn cells(t: &ObjType) -> u32
    requires { cells_of t.now ≤ most_cells }
    ensures { result ≡ cells_of t.now }
{
    match t {
        ObjType::Int(_) => 1,
        ObjType::Array { element, length } => {
            if *length == 0 {
                0
            } else {
                *length * cells(element)
            }
        }
        ObjType::Struct { members, .. } => cells_of_all(members),
    }
}

#[cycle(cells)]
fn cells_of_all(members: &[ObjType]) -> u32
    requires { sum (map cells_of members.now) ≤ most_cells }
    ensures { result ≡ sum (map cells_of members.now) }
{
    let mut total = 0;
    for member in members {
        total += cells(member);
    }
    total
}
