//! Values that are put at an end and taken away there.
ghost use Rattle.std.specs.Prelude.{◌≡◌, ◌+◌, ◌<◌, ◌≤◌, ◌++◌, [], ◌∷◌, length, take, replicate, slice_get, slice_set, Some, IfOk};
ghost use Rattle.mc_stack.specs.Rooms.{Room, with_values};

use std::alloc::{AllocError, Global};
use std::marker::Model;

/// Values in a row that has room for so many, seen as the list of those in use and the limit that
/// their count does not pass. Places are counted from 0. All memory is taken when it is made.
#[derive(Drop)]
pub struct Stack<T> {
    items: Vec<T>,
    limit: usize,
}

impl<T> Model for Stack<T> {
    ghost use Rattle.std.specs.Prelude.{◌≤◌, length, vec_capacity};
    ghost use Rattle.mc_stack.specs.Rooms.{Room};

    ghost Value = { Room T };

    ghost view = { λ s. record { items = s.items.items; limit = s.limit } };

    ghost invariant = { λ s. (s.limit ≤ vec_capacity s.items) × (length s.items.items ≤ s.limit) };
}

impl<T: Copy> Stack<T> {
    /// No value, and room for `limit` of them.
    pub fn with(alloc: Global, limit: usize) -> Result<Self, AllocError>
        ensures { IfOk result (λ s. s ≡ record { items = []; limit = limit }) }
    {
        let items = Vec::with_capacity(alloc, limit)?;
        Ok(Stack { items, limit })
    }

    /// How many values are in use. Takes no memory.
    pub fn len(&self) -> usize
        ensures { result ≡ length self.now.items }
    {
        self.items.len()
    }

    /// The same, which is no more than the limit. Takes no memory.
    pub fn in_use(&self) -> usize
        ensures count { result ≡ length self.now.items }
        ensures within { result ≤ self.now.limit }
    {
        self.items.len()
    }

    /// The value at a place. Takes no memory.
    pub fn get(&self, at: usize) -> T
        requires { at < length self.now.items }
        ensures { slice_get self.now.items at ≡ Some result }
    {
        self.items[at]
    }

    /// The values, the first at the bottom. Takes no memory.
    pub fn values(&self) -> &[T]
        ensures { result.now ≡ self.now.items }
    {
        &self.items
    }

    /// Puts another value at a place. Takes no memory.
    pub fn set(&mut self, at: usize, value: T)
        requires { at < length self.old.items }
        ensures { self.new ≡ with_values self.old (slice_set self.old.items at value) }
    {
        self.items[at] = value;
    }

    /// Puts a value at the end. Takes no memory.
    pub fn push(&mut self, value: T)
        requires { length self.old.items < self.old.limit }
        ensures { self.new ≡ with_values self.old (self.old.items ++ value ∷ []) }
    {
        match self.items.push(value) {
            Ok(()) => {}
            Err(_) => unreachable!(),
        }
    }

    /// Puts `count` times a value at the end. Takes no memory.
    pub fn enter(&mut self, count: usize, value: T)
        requires { length self.old.items + count ≤ self.old.limit }
        ensures { self.new ≡ with_values self.old (self.old.items ++ replicate count value) }
    {
        for _i in 0..count {
            match self.items.push(value) {
                Ok(()) => {}
                Err(_) => unreachable!(),
            }
        }
    }

    /// Gives back all from `base` on. Takes no memory.
    pub fn leave(&mut self, base: usize)
        ensures { self.new ≡ with_values self.old (take base self.old.items) }
    {
        self.items.truncate(base);
    }
}
