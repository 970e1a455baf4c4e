//! Values on the heap and at the end of lists, by functions of any type: what is proved of a type
//! of trees at such a step is costly.
ghost use Rattle.std.specs.Prelude.{◌≡◌, ◌++◌, ◌∷◌, [], IfOk};
ghost use Rattle.parse_cursor.specs.Made.{IsOnHeap};

use crate::fault::Fault;
use std::alloc::{AllocError, Global};

/// A value on the heap.
#[inline(never)]
pub fn on_heap<T: Drop>(alloc: Global, one: T) -> Result<Box<T>, Fault>
    ensures { IsOnHeap one result }
{
    Ok(Box::new(alloc, one)?)
}

// Room for exactly one value, where there is none yet: most lists keep one value, and std's list
// would begin with room for four.
fn room_for_one<T: Drop>(all: &mut Vec<T>) -> Result<(), AllocError>
    ensures { all.new.items ≡ all.old.items }
{
    if all.is_empty() {
        all.reserve_exact(1)
    } else {
        Ok(())
    }
}

/// Puts a value at the end.
#[inline(never)]
pub fn push<T: Drop>(all: &mut Vec<T>, one: T) -> Result<(), AllocError>
    ensures { IfOk result (λ _. all.new.items ≡ all.old.items ++ one ∷ []) }
{
    room_for_one(all)?;
    all.push(one)?;
    Ok(())
}

/// Puts a value that is on the heap at the end.
#[inline(never)]
pub fn push_boxed<T: Drop>(all: &mut Vec<T>, one: Box<T>) -> Result<(), AllocError>
    ensures { IfOk result (λ _. all.new.items ≡ all.old.items ++ one.value ∷ []) }
{
    room_for_one(all)?;
    all.push(Box::into_inner(one))?;
    Ok(())
}
