//! The functions of a unit that have a body.
ghost use Rattle.std.specs.Prelude.{◌≡◌, ◌<◌, ◌^◌, ◌∷◌, ◌++◌, [], ℕ, List, Some, length, OnOk, OnErr};
ghost use Rattle.types_rules.specs.Scopes.{place_from, later_or};

use name_table::Table;
use std::alloc::{AllocError, Global};
use std::marker::Model;

/// The names of the functions that have a body, in the order of their definitions, each with the
/// number of the first function with this name. It is found in logarithmic time.
#[derive(Drop)]
pub struct Bodies<'a> {
    numbers: Table<'a, u32>,
}

impl<'a> Model for Bodies<'a> {
    ghost use Rattle.std.specs.Prelude.{List, ℕ, map};
    ghost use Rattle.types_scopes.specs.Seen.{AreNumbered};

    ghost Value = { List (List ℕ) };

    ghost view = { λ b. map (λ e. e.name) b.numbers };

    ghost invariant = { λ b. AreNumbered b.numbers };
}

impl<'a> Bodies<'a> {
    /// No functions. Takes no memory.
    pub fn new(alloc: Global) -> Bodies<'a>
        ensures { result ≡ [] }
    {
        Bodies {
            numbers: Table::new(alloc),
        }
    }

    /// The number of the first function with this name. Takes no memory.
    pub fn number(&self, name: &[u8]) -> Option<u32>
        ensures { result ≡ place_from 0 name.now self.now }
    {
        self.numbers.get(name).copied()
    }

    // The number of a name once it is that of one more function.
    fn number_with(&self, name: &[u8]) -> u32
        requires { length self.now < 2 ^ 32 }
        ensures { Some result
            ≡ later_or (place_from 0 name.now self.now) (Some (length self.now)) }
    {
        match self.number(name) {
            Some(number) => number,
            None => self.numbers.len() as u32,
        }
    }

    /// One more function.
    ///
    /// # Errors
    ///
    /// `AllocError` where memory runs out: then the functions are as before.
    pub fn push(&mut self, name: &'a [u8]) -> Result<(), AllocError>
        requires { length self.old < 2 ^ 32 }
        ensures ok { OnOk result (self.new ≡ self.old ++ name.now ∷ []) }
        ensures err { OnErr result (self.new ≡ self.old) }
    {
        let number = self.number_with(name);
        self.numbers.push(name, number)?;
        Ok(())
    }
}
