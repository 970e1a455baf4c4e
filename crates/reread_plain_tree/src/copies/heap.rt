//! Values on the heap and at the end of lists, by functions of any type: what is proved of a type
//! of trees at such a step is costly.
ghost use Rattle.std.specs.Prelude.{◌≡◌, ◌++◌, ◌∷◌, [], IfOk};

use std::alloc::{AllocError, Global};

/// A value on the heap.
#[inline(never)]
pub(super) fn on_heap<T: Drop>(alloc: Global, one: T) -> Result<Box<T>, AllocError>
    ensures { IfOk result (λ made. made.value ≡ one) }
{
    let made = Box::new(alloc, one)?;
    Ok(made)
}

/// Puts a value that is on the heap at the end.
#[inline(never)]
pub(super) fn push_boxed<T: Drop>(all: &mut Vec<T>, one: Box<T>) -> Result<(), AllocError>
    ensures { IfOk result (λ _. all.new.items ≡ all.old.items ++ one.value ∷ []) }
{
    all.push(Box::into_inner(one))?;
    Ok(())
}
