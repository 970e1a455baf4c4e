//! The files that commands ask for.
ghost use Rattle.std.specs.Prelude.{◌≡◌};
ghost use Rattle.station_replies.specs.Files.{limit_of, status_of};

use crate::status::Status;
use mc_limits::{MOST_JUSTIFICATION_BYTES, MOST_RECORD_BYTES, MOST_SOURCE_BYTES, MOST_TESTS_BYTES};

/// What a file is read as.
#[derive(Clone, Copy)]
pub enum FileKind {
    Source,
    Tests,
    Record,
    Justifications,
}

/// A file of a command.
#[derive(Clone, Copy)]
pub struct File<'w> {
    pub kind: FileKind,
    pub name: &'w str,
}

impl FileKind {
    /// The greatest length of such a file, in bytes.
    pub fn limit(self) -> u64
        ensures { result ≡ limit_of self }
    {
        match self {
            FileKind::Source => MOST_SOURCE_BYTES as u64,
            FileKind::Tests => MOST_TESTS_BYTES as u64,
            FileKind::Record => MOST_RECORD_BYTES as u64,
            FileKind::Justifications => MOST_JUSTIFICATION_BYTES as u64,
        }
    }

    /// The status where such a file is refused.
    pub fn refused(self) -> Status
        ensures { result ≡ status_of self }
    {
        match self {
            FileKind::Source => Status::SourceRefused,
            FileKind::Tests => Status::TestsRefused,
            FileKind::Record => Status::TestsRefused,
            FileKind::Justifications => Status::JustificationsRefused,
        }
    }
}
