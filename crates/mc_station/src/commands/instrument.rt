//! The command `instrument`.
ghost use Rattle.std.specs.Prelude.{◌<◌, ◌^◌, IfOk, Ok, length};
ghost use Rattle.mc_lex.specs.Tokens.{toks_of};
ghost use Rattle.mc_station.specs.Replied.{seen_reply};
ghost use Rattle.mc_station.specs.Seen.{HasTokens, HasItsTree, seen_accepted};
ghost use Rattle.mc_station.specs.Source.{Lexes};
ghost use Rattle.mc_station.specs.commands.Instrument.{Instruments};

use crate::accepted::Accepted;
use crate::reply::Reply;
use mc_lex::{Dialect, LexFault, Token, lex};
use std::alloc::{AllocError, Global};

/// The tokens of a source that has them, read again.
pub fn tokens_of<'a>(alloc: Global, source: &'a [u8]) -> Result<Vec<Token<'a>>, AllocError>
    requires short { length source.now < 2 ^ 31 }
    requires tokens { HasTokens source.now }
    ensures { IfOk result (λ tokens. Lexes source.now (Ok (toks_of tokens.items))) }
{
    match lex(alloc, source, Dialect::Plain) {
        Ok(tokens) => Ok(tokens),
        Err(LexFault::OutOfMemory) => Err(AllocError),
        Err(_) => unreachable!(),
    }
}

/// The reply of `instrument`: the text of the program with its probes.
pub fn instrument<'a>(alloc: Global, accepted: Accepted<'a>) -> Result<Reply<'a>, AllocError>
    requires instrumented { HasItsTree accepted }
    ensures { IfOk result (λ reply.
        Instruments (seen_accepted accepted.entry) (seen_reply reply)) }
{
    match tokens_of(alloc, accepted.source) {
        Ok(tokens) => {
            let Accepted {
                source: _,
                tree,
                map,
            } = accepted;
            drop(map);
            Ok(Reply::of_program(alloc, tokens, tree))
        }
        Err(error) => {
            drop(accepted);
            Err(error)
        }
    }
}
