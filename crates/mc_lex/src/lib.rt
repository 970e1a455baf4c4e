//! The tokens of a C source, lent from it.
#![tactic(auto)]

mod base;
mod byte;
mod candidate;
mod character;
mod digits;
mod fault;
mod fault_kind;
mod gap;
pub mod laws;
mod lexer;
mod next;
mod number;
mod place;
mod punctuator;
mod suffix;
mod table;
mod token;
mod word;

pub use fault::LexFault;
pub use lexer::lex;
pub use place::{Place, place_of, quote};
pub use token::{Dialect, Token, TokenKind};
