//! The longest text at the start that can be a token.
ghost use Rattle.std.specs.Prelude.{◌≡◌, ◌≤◌, ◌<◌, ◌^◌, length};
ghost use Rattle.mc_lex.specs.steps.Scanner as spec;

use crate::character::{character_kind, character_len};
use crate::fault_kind::FaultKind;
use crate::number::{number_kind, number_len};
use crate::punctuator::{punctuator_kind, punctuator_len};
use crate::token::{Dialect, TokenKind};
use crate::word::{word_kind, word_len};

/// The classes of texts that can be tokens.
#[derive(Clone, Copy, Debug, PartialEq, Eq)]
pub enum Class {
    Word,
    Number,
    Character,
    Punctuator,
}

/// A text at the start of some bytes that can be a token.
#[derive(Clone, Copy, Debug, PartialEq, Eq)]
pub struct Candidate {
    pub class: Class,
    pub length: usize,
}

fn longer(a: Candidate, b: Candidate) -> Candidate
    ensures { result ≡ spec.longer a b }
{
    if a.length < b.length { b } else { a }
}

/// The longest text at the start that can be a token; its length is 0 where there is none.
#[tactic(auto, unfolding(crate::specs::steps::Scanner::candidate_at))]
pub fn candidate_at(bytes: &[u8]) -> Candidate
    requires { length bytes.now < 2 ^ 31 }
    ensures { result ≡ spec.candidate_at bytes.now }
{
    let punctuator = Candidate {
        class: Class::Punctuator,
        length: punctuator_len(bytes),
    };
    let word = Candidate {
        class: Class::Word,
        length: word_len(bytes),
    };
    let number = Candidate {
        class: Class::Number,
        length: number_len(bytes),
    };
    let character = Candidate {
        class: Class::Character,
        length: character_len(bytes),
    };
    longer(longer(longer(punctuator, word), number), character)
}

/// What a text of a class is.
#[tactic(auto, unfolding(crate::specs::steps::Scanner::kind_of))]
pub fn kind_of(dialect: Dialect, class: Class, text: &[u8]) -> Result<TokenKind, FaultKind>
    requires { length text.now < 2 ^ 31 }
    ensures { result ≡ spec.kind_of dialect class text.now }
{
    match class {
        Class::Word => word_kind(text, dialect),
        Class::Number => number_kind(text),
        Class::Character => character_kind(text),
        Class::Punctuator => punctuator_kind(text),
    }
}
