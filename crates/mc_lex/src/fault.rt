//! Why a source has no token list.

use std::alloc::{AllocError, AllocFailed};
use thiserror::Error;

/// The first place in a source where no token stands, or that memory ran out.
/// `at` is the byte at which the faulty text starts.
#[derive(Clone, Copy, Debug, PartialEq, Eq, Error)]
pub enum LexFault {
    /// A byte that begins nothing that C has.
    #[error("byte")]
    Byte { at: u32 },
    /// A number, a character constant or a comment that is not well formed.
    #[error("token")]
    Token { at: u32 },
    /// A `#` that does not begin a line marker.
    #[error("directive")]
    Directive { at: u32 },
    /// A word, punctuator or literal of C that this project leaves out.
    #[error("outside word")]
    OutsideWord { at: u32 },
    /// An integer constant that no type of its list holds (C17 6.4.4.1).
    #[error("constant too wide")]
    Limit { at: u32 },
    /// Memory ran out.
    #[error("out of memory")]
    OutOfMemory,
}

ghost use Rattle.std.specs.Prelude.{◌≡◌};
ghost use Rattle.mc_lex.specs.Faults.{fault_place, fault_word};

impl LexFault {
    /// The place of the fault: the byte at which the faulty text starts.
    /// That memory ran out has none.
    pub fn at(&self) -> Option<u32>
        ensures { result ≡ fault_place self.now }
    {
        match *self {
            LexFault::Byte { at } => Some(at),
            LexFault::Token { at } => Some(at),
            LexFault::Directive { at } => Some(at),
            LexFault::OutsideWord { at } => Some(at),
            LexFault::Limit { at } => Some(at),
            LexFault::OutOfMemory => None,
        }
    }

    /// What the fault is called. That memory ran out has no words.
    pub fn words(&self) -> &'static str
        ensures { result.now ≡ fault_word self.now }
    {
        match *self {
            LexFault::Byte { .. } => "byte",
            LexFault::Token { .. } => "token",
            LexFault::Directive { .. } => "directive",
            LexFault::OutsideWord { .. } => "outside word",
            LexFault::Limit { .. } => "constant too wide",
            LexFault::OutOfMemory => "",
        }
    }
}

impl From<AllocError> for LexFault {
    ghost use Rattle.mc_lex.specs.declared.fault.LexFault.TheVariants.{OutOfMemory};

    ghost from_gives = { λ _ e. e ≡ OutOfMemory };

    fn from(_error: AllocError) -> LexFault {
        LexFault::OutOfMemory
    }
}

impl<T: Drop> From<AllocFailed<T>> for LexFault {
    ghost use Rattle.mc_lex.specs.declared.fault.LexFault.TheVariants.{OutOfMemory};

    ghost from_gives = { λ _ e. e ≡ OutOfMemory };

    fn from(_error: AllocFailed<T>) -> LexFault {
        LexFault::OutOfMemory
    }
}
