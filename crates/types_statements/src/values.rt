//! Lists of the program, whatever is in them.
ghost use Rattle.std.specs.Prelude.{◌≡◌, IfOk, option_map, box_value};
ghost use Rattle.types_statements.specs.Lists.{only_of};

use std::alloc::{AllocError, Global};

/// The value of a list of one.
pub(crate) fn only<T: Drop>(list: Vec<T>) -> Option<T>
    ensures { result ≡ only_of list.items }
{
    let mut list = list;
    if list.len() == 1 { list.pop() } else { None }
}

// A value in a box, where there is one.
fn boxed<T: Drop>(alloc: Global, one: Option<T>) -> Result<Option<Box<T>>, AllocError>
    ensures { IfOk result (λ r. option_map box_value r ≡ one) }
{
    match one {
        Some(one) => Ok(Some(Box::new(alloc, one)?)),
        None => Ok(None),
    }
}

/// The value of a list of one, in a box.
pub(crate) fn only_boxed<T: Drop>(alloc: Global, list: Vec<T>) -> Result<Option<Box<T>>, AllocError>
    ensures { IfOk result (λ r. option_map box_value r ≡ only_of list.items) }
{
    boxed(alloc, only(list))
}
