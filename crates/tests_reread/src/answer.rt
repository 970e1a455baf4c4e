//! What reading a text answers.

use crate::fail::Fail;
use mc_parse::ParseFault;
use reread_program::{RereadFault, reread};
use std::alloc::Global;

/// The number of bits of a text that is read, or why it is not, with the place.
#[derive(Clone, Copy, Debug, PartialEq, Eq)]
pub(crate) enum Answer {
    Read(u32),
    Lex(u32),
    Parse(u32),
    Outside(u32),
    Typing(u32),
    Probe(u32),
}

fn of_fault(fault: RereadFault) -> Result<Answer, Fail> {
    match fault {
        RereadFault::Lex(found) => Ok(Answer::Lex(found.at().ok_or(Fail)?)),
        RereadFault::Parse(ParseFault::Syntax { at }) => Ok(Answer::Parse(at)),
        RereadFault::Parse(ParseFault::OutOfMemory) => Err(Fail),
        RereadFault::Outside(found) => Ok(Answer::Outside(found.span.start)),
        RereadFault::Typing(found) => Ok(Answer::Typing(found.at().ok_or(Fail)?)),
        RereadFault::Probe { at } => Ok(Answer::Probe(at)),
        RereadFault::OutOfMemory => Err(Fail),
    }
}

pub(crate) fn answer_of(alloc: Global, text: &[u8]) -> Result<Answer, Fail> {
    if text.len() >= 0x8000_0000 {
        return Err(Fail);
    }
    match reread(alloc, text) {
        Ok(tree) => {
            let bits = tree.bits();
            drop(tree);
            Ok(Answer::Read(bits))
        }
        Err(fault) => of_fault(fault),
    }
}
