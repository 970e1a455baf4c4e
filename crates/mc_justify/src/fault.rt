//! Why a justification file stands for no justifications.

use mc_oblige::Reason;
use std::alloc::{AllocError, AllocFailed};
use std::fmt::{self, Debug, Display, Formatter, Write};
use thiserror::Error;

/// The first fault of a justification file, or that memory ran out. The entries are numbered from
/// 1, and entry 0 is the file itself. A fault of the file itself answers before those of its
/// entries, and an entry before those after it. In an entry with several faults the one that stands
/// first here answers.
#[derive(Drop, Error)]
pub enum JustifyFault<'a> {
    /// The bytes are not JSON text (RFC 8259).
    #[error("justification: json")]
    Json,
    /// The file is not a list, or the entry is not an object of exactly the three texts `id`,
    /// `quote` and `reason`, the last of which is not empty.
    #[error("justification entry {entry}: shape")]
    Shape {
        entry: u32,
    },
    /// No obligation has the entry's id.
    #[error("justification entry {entry}: unknown")]
    Unknown {
        entry: u32,
    },
    /// The bytes of the source where the obligation stands, which are `kept`, differ from those of
    /// the entry's quote, which are `given`.
    #[error("justification entry {entry}: quote")]
    Quote {
        entry: u32,
        kept: &'a [u8],
        given: Reason,
    },
    /// An earlier entry has the id.
    #[error("justification entry {entry}: repeated")]
    Repeated {
        entry: u32,
    },
    /// The file has more than `MOST_JUSTIFICATIONS` entries.
    #[error("justification: limit")]
    Limit,
    /// Memory ran out.
    #[error("out of memory")]
    OutOfMemory,
}

impl Debug for JustifyFault<'_> {
    fn fmt<W: Write>(&self, f: &mut Formatter<W>) -> fmt::Result {
        Display::fmt(self, f)
    }
}

impl<'a> From<AllocError> for JustifyFault<'a> {
    ghost use Rattle.std.specs.Prelude.{◌≡◌};
    ghost use Rattle.mc_justify.specs.declared.fault.JustifyFault.TheVariants.{OutOfMemory};

    ghost from_gives = { λ _ e. e ≡ OutOfMemory };

    fn from(_error: AllocError) -> JustifyFault<'a> {
        JustifyFault::OutOfMemory
    }
}

impl<'a, T: Drop> From<AllocFailed<T>> for JustifyFault<'a> {
    ghost use Rattle.std.specs.Prelude.{◌≡◌};
    ghost use Rattle.mc_justify.specs.declared.fault.JustifyFault.TheVariants.{OutOfMemory};

    ghost from_gives = { λ _ e. e ≡ OutOfMemory };

    fn from(_error: AllocFailed<T>) -> JustifyFault<'a> {
        JustifyFault::OutOfMemory
    }
}
