//! Values on the heap, in lists, or none, by functions of any type: what is proved of a type of
//! trees at such a step is costly.
ghost use Rattle.std.specs.Prelude.{◌≡◌, ◌++◌, ◌∷◌, [], IfOk, OnOk, IsOk, option_map};
ghost use Rattle.types_faults.specs.Faults.{least_of};
ghost use Rattle.types_faults.specs.Kept.{listed};
ghost use Rattle.types_rules.specs.Values.{lift2};
ghost use Rattle.types_rules.specs.Declarations.{append};
ghost use Rattle.types_scopes.specs.Lists.{items_in};

use crate::found::Judged;
use crate::joined::of_two;
use std::alloc::{AllocError, Global};
use std::sync::Arc;

/// A value on the heap.
pub fn on_heap<T: Drop>(alloc: Global, one: T) -> Result<Box<T>, AllocError>
    ensures { IfOk result (λ r. r.value ≡ one) }
{
    Ok(Box::new(alloc, one)?)
}

/// A value on the heap that can be shared.
pub fn shared<T: Drop>(alloc: Global, one: T) -> Result<Arc<T>, AllocError>
    ensures { IfOk result (λ r. r.value ≡ one) }
{
    Ok(Arc::new(alloc, one)?)
}

/// A value, where what was done with it went well.
pub fn where_done<T: Drop>(done: Result<(), AllocError>, one: T) -> Result<T, AllocError>
    ensures done { OnOk result (IsOk done) }
    ensures same { IfOk result (λ r. r ≡ one) }
{
    match done {
        Ok(()) => Ok(one),
        Err(error) => {
            drop(one);
            Err(error)
        }
    }
}

// Room for exactly one value, where there is none yet: most lists keep one value, and std's list
// would begin with room for four.
fn room_for_one<T: Drop>(all: &mut Vec<T>) -> Result<(), AllocError>
    ensures { all.new.items ≡ all.old.items }
{
    if all.is_empty() {
        all.reserve_exact(1)
    } else {
        Ok(())
    }
}

/// Puts a value at the end.
pub fn push<T: Drop>(all: &mut Vec<T>, one: T) -> Result<(), AllocError>
    ensures { OnOk result (all.new.items ≡ all.old.items ++ one ∷ []) }
{
    room_for_one(all)?;
    all.push(one)?;
    Ok(())
}

/// A list, and a value after it.
pub fn with_last<T: Drop>(list: Vec<T>, one: T) -> Result<Vec<T>, AllocError>
    ensures { IfOk result (λ r. r.items ≡ list.items ++ one ∷ []) }
{
    let mut list = list;
    push(&mut list, one)?;
    Ok(list)
}

/// A list of one value.
pub fn list_of<T: Drop>(alloc: Global, one: T) -> Result<Vec<T>, AllocError>
    ensures { IfOk result (λ r. r.items ≡ one ∷ []) }
{
    with_last(Vec::new(alloc), one)
}

// Moves the values of the one list to the end of the other.
fn appended<T: Drop>(list: Vec<T>, more: Vec<T>) -> Result<Vec<T>, AllocError>
    ensures { IfOk result (λ r. r.items ≡ list.items ++ more.items) }
{
    let mut list = list;
    let mut more = more;
    list.append(&mut more)?;
    Ok(list)
}

/// The one list after the other. Takes no memory where the first one is empty: the room is then
/// that of the second one.
pub fn joined<T: Drop>(list: Vec<T>, more: Vec<T>) -> Result<Vec<T>, AllocError>
    ensures { IfOk result (λ r. r.items ≡ list.items ++ more.items) }
{
    if list.is_empty() {
        drop(list);
        Ok(more)
    } else {
        appended(list, more)
    }
}

fn joined_values<T: Drop>(
    list: Option<Vec<T>>,
    more: Option<Vec<T>>,
) -> Result<Option<Vec<T>>, AllocError>
    ensures { IfOk result (λ r. option_map items_in r
        ≡ lift2 append (option_map items_in list) (option_map items_in more)) }
{
    match list {
        Some(list) => match more {
            Some(more) => Ok(Some(joined(list, more)?)),
            None => Ok(None),
        },
        None => Ok(None),
    }
}

/// The one list after the other, and the first of their faults.
pub fn joined_lists<T: Drop>(
    list: Judged<Vec<T>>,
    more: Judged<Vec<T>>,
) -> Result<Judged<Vec<T>>, AllocError>
    ensures fault { IfOk result (λ r.
        r.fault ≡ least_of (listed list.fault ++ (listed more.fault ++ []))) }
    ensures value { IfOk result (λ r. option_map items_in r.value
        ≡ lift2 append (option_map items_in list.value) (option_map items_in more.value)) }
{
    let fault = of_two(list.fault, more.fault);
    let value = joined_values(list.value, more.value)?;
    Ok(Judged { fault, value })
}

/// Lets a value go that may be there and is not used.
pub fn unused<T: Drop>(one: Option<T>) {
    match one {
        Some(one) => drop(one),
        None => {}
    }
}

/// The same of a value that may be there twice over.
pub fn unused_inner<T: Drop>(one: Option<Option<T>>) {
    match one {
        Some(one) => unused(one),
        None => {}
    }
}
