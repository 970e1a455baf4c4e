//! Why an instrumented text is not read.

use mc_lex::LexFault;
use mc_parse::ParseFault;
use mc_subset::Outside;
use mc_types::TypeFault;
use std::alloc::AllocError;
use thiserror::Error;

/// Why an instrumented text is not read. The variants are in the order in which they are found.
#[derive(Clone, Copy, Debug, Error)]
pub enum RereadFault {
    /// A byte begins no token. Holds no want of memory.
    #[error("{0}")]
    Lex(LexFault),
    /// The tokens have no tree, or a probe stands where the table puts no such one. Its place is
    /// that of some token, or the end. Holds no want of memory.
    #[error("{0}")]
    Parse(ParseFault),
    /// The text without its probes has a node outside the profile.
    #[error("outside the profile")]
    Outside(Outside),
    /// The text without its probes has a fault of names or types. Holds no want of memory.
    #[error("{0}")]
    Typing(TypeFault),
    /// Here starts the word of the first probe in the text with a fault: its register is not one of
    /// its function, it names or reaches a bit that is not below 65,536, or it does not stand round
    /// an integer value which a function's body evaluates.
    #[error("probe at byte {at}")]
    Probe { at: u32 },
    #[error("out of memory")]
    OutOfMemory,
}

impl From<AllocError> for RereadFault {
    ghost use Rattle.std.specs.Prelude.{◌≡◌};
    ghost use Rattle.reread_program.specs.declared.fault.RereadFault.TheVariants.{OutOfMemory};

    ghost from_gives = { λ _ e. e ≡ OutOfMemory };

    fn from(_error: AllocError) -> RereadFault {
        RereadFault::OutOfMemory
    }
}
