//! Why a file is not accepted.
ghost use Rattle.std.specs.Prelude.{◌≡◌};
ghost use Rattle.station_replies.specs.Seen.{reply_to};

use crate::file::File;
use crate::status::Status;
use mc_lex::Place;
use mc_tests::TestFault;
use subset_forms::Form;

/// Why a file is refused. It owns what it quotes of a file that is gone by then.
#[derive(Drop)]
pub enum Refusal<'a> {
    /// It is longer than its limit.
    TooLong(File<'a>),
    /// The source has a fault at a place, and this is its kind.
    Fault {
        place: Place,
        word: &'static str,
    },
    /// The source has a form of C at a place that the profile leaves out.
    Outside {
        place: Place,
        form: Form,
    },
    /// The decision at a place of the source has too many of these.
    TooMany {
        place: Place,
        what: &'static str,
        count: u128,
    },
    /// No line of the source is of the file with this name.
    NothingOf {
        name: &'a str,
    },
    /// The program has too many bits.
    TooManyBits {
        count: u64,
    },
    /// Pieces of the source stay outside the language: a line for each.
    NotAdapted {
        lines: Vec<u8>,
    },
    /// The source that is made has too many bytes.
    TooManyBytes {
        count: u64,
    },
    /// The tests file has a first fault.
    Tests(TestFault),
    /// The record with this name has a first fault, in this line, and this is its kind.
    Record {
        name: &'a str,
        line: u32,
        word: &'static str,
    },
    /// A test of the left record and one of the right record have one name. Each is numbered from
    /// 0.
    SameTest {
        left: u32,
        right: u32,
    },
    /// Two records have too many tests together: this number.
    TooManyTests {
        count: u32,
    },
    /// The file of justifications is none, for this reason.
    Justifications {
        word: &'static str,
    },
    /// An entry of the file of justifications has a fault, and this is its kind.
    Entry {
        entry: u32,
        word: &'static str,
    },
    /// An entry quotes its obligation otherwise than the source has it.
    Quote {
        entry: u32,
        kept: &'a [u8],
        given: Vec<u8>,
    },
    /// The matrix of all bits under all tests would have this number of words.
    TooLarge {
        words: u64,
    },
    /// The program has this number of mutants, which are too many.
    TooManyMutants {
        count: u32,
    },
}

impl Refusal<'_> {
    /// The status of a refusal.
    pub fn status(&self) -> Status
        ensures { result ≡ (reply_to self.now).status }
    {
        match self {
            Refusal::TooLong(file) => file.kind.refused(),
            Refusal::Fault { .. }
            | Refusal::Outside { .. }
            | Refusal::TooMany { .. }
            | Refusal::NothingOf { .. }
            | Refusal::TooManyBits { .. }
            | Refusal::NotAdapted { .. }
            | Refusal::TooManyBytes { .. } => Status::SourceRefused,
            Refusal::Tests(_)
            | Refusal::Record { .. }
            | Refusal::SameTest { .. }
            | Refusal::TooManyTests { .. } => Status::TestsRefused,
            Refusal::Justifications { .. } | Refusal::Entry { .. } | Refusal::Quote { .. } => {
                Status::JustificationsRefused
            }
            Refusal::TooLarge { .. } => Status::TooLarge,
            Refusal::TooManyMutants { .. } => Status::TooManyMutants,
        }
    }
}
