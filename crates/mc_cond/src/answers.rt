//! The answers of a decision's conditions, as far as they are known.

ghost use Rattle.std.specs.Prelude.{◌≡◌, ◌+◌, ◌<◌, ◌≤◌, List, [], ◌∷◌, ◌++◌, length, take, replicate, slice_get, Some, None, Option, Bool};

use std::marker::Model;

/// The answers of conditions from the first on: true, false, or not evaluated. It holds at most 64.
#[derive(Drop)]
pub struct Answers {
    given: [Option<bool>; 64],
    len: usize,
}

impl Model for Answers {
    ghost Value = { List (Option Bool) };

    ghost view = { λ a. take a.len a.given };

    ghost invariant = { λ a. (a.len ≤ 64) × (length a.given ≡ 64) };
}

impl Answers {
    /// No answer yet.
    pub fn new() -> Self
        ensures { result ≡ [] }
    {
        Answers {
            given: [None; 64],
            len: 0,
        }
    }

    /// How many conditions have been passed.
    pub fn len(&self) -> usize
        ensures count { result ≡ length self.now }
        ensures few { result ≤ 64 }
    {
        self.len
    }

    /// The answer of condition `k`.
    pub fn get(&self, k: usize) -> Option<bool>
        requires { k < length self.now }
        ensures { slice_get self.now k ≡ Some result }
    {
        let given = &self.given;
        given[k]
    }

    /// Adds the answer of the next condition.
    pub fn push(&mut self, answer: Option<bool>)
        requires { length self.old < 64 }
        ensures { self.new ≡ self.old ++ answer ∷ [] }
    {
        self.given[self.len] = answer;
        self.len += 1;
    }

    /// Passes over the next `count` conditions, which are not evaluated.
    pub fn skip(&mut self, count: u32)
        requires { length self.old + count ≤ 64 }
        ensures { self.new ≡ self.old ++ replicate count None }
    {
        for _turn in 0..count {
            self.push(None);
        }
    }
}
