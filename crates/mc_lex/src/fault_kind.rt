//! Why no token stands at a place, without the place.

use crate::fault::LexFault;

/// The kinds of [`LexFault`] that have a place.
#[derive(Clone, Copy, Debug, PartialEq, Eq)]
pub enum FaultKind {
    Byte,
    Token,
    Directive,
    OutsideWord,
    Limit,
}

ghost use Rattle.std.specs.Prelude.{◌≡◌};
ghost use Rattle.mc_lex.specs.Scans.{fault_at};

/// The fault of a kind at a place.
pub fn fault_at(why: FaultKind, at: u32) -> LexFault
    ensures { result ≡ fault_at why at }
{
    match why {
        FaultKind::Byte => LexFault::Byte { at },
        FaultKind::Token => LexFault::Token { at },
        FaultKind::Directive => LexFault::Directive { at },
        FaultKind::OutsideWord => LexFault::OutsideWord { at },
        FaultKind::Limit => LexFault::Limit { at },
    }
}
