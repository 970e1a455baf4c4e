//! The words of a command line.
ghost use Rattle.std.specs.Prelude.{◌≡◌, ◌<◌, ◌^◌, ◌++◌, ◌∷◌, [], length, OnOk, OnErr, slice_get, Some};

use std::alloc::{AllocError, Global};
use std::marker::Model;

/// A list of texts: the words of a command line, without the program's own name.
#[derive(Drop)]
pub struct Words {
    alloc: Global,
    words: Vec<String>,
}

impl Model for Words {
    ghost use Rattle.std.specs.Prelude.{List, ℕ, length, ◌≤◌, ◌^◌};
    ghost use Rattle.mc_port.specs.Words.{texts};

    ghost Value = { List (List ℕ) };

    ghost view = { λ w. texts w.words.items };

    ghost invariant = { λ w. length w.words.items ≤ 2 ^ 31 };
}

impl Words {
    /// No word yet. Takes no memory.
    pub fn new(alloc: Global) -> Words
        ensures { result ≡ [] }
    {
        Words {
            alloc,
            words: Vec::new(alloc),
        }
    }

    /// Puts the word at the end.
    pub fn push(&mut self, word: &str) -> Result<(), AllocError>
        requires { length self.old < 2 ^ 31 }
        ensures ok { OnOk result (self.new ≡ self.old ++ word.now ∷ []) }
        ensures err { OnErr result (self.new ≡ self.old) }
    {
        let kept = String::from_str(self.alloc, word)?;
        self.words.push(kept)?;
        Ok(())
    }

    /// How many words there are.
    pub fn count(&self) -> u32
        ensures { result ≡ length self.now }
    {
        self.words.len() as u32
    }

    /// The word at that place, counted from 0.
    pub fn get(&self, at: u32) -> &str
        requires { at < length self.now }
        ensures { slice_get self.now at ≡ Some result.now }
    {
        self.words[at as usize].as_str()
    }
}
