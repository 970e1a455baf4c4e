//! The status of the program.
ghost use Rattle.std.specs.Prelude.{◌≡◌};
ghost use Rattle.station_replies.specs.Status.{number_of, status_written};

/// How the program ends.
#[derive(Clone, Copy)]
pub enum Status {
    /// All was written, and nothing is missing.
    Done,
    /// All was written, and an obligation is missing, a mutant survived, or a test did not
    /// pass.
    Incomplete,
    /// The words are not a command.
    NoCommand,
    /// The source is not accepted.
    SourceRefused,
    /// The tests file, a record, or a pair of records is not accepted.
    TestsRefused,
    /// The file of justifications is not accepted.
    JustificationsRefused,
    /// A file cannot be read.
    CannotRead,
    /// An output cannot be written.
    CannotWrite,
    /// Memory does not suffice.
    OutOfMemory,
    /// The matrix of all bits under all tests has too many words.
    TooLarge,
    /// The program has too many mutants.
    TooManyMutants,
}

impl Status {
    /// The status where all was written: 0, or 1 where the number is another one.
    pub fn written(number: u8) -> Status
        ensures { result ≡ status_written number }
    {
        if number == 0 {
            Status::Done
        } else {
            Status::Incomplete
        }
    }

    /// The number that the program ends with.
    pub fn number(self) -> u8
        ensures { result ≡ number_of self }
    {
        match self {
            Status::Done => 0,
            Status::Incomplete => 1,
            Status::NoCommand => 2,
            Status::SourceRefused => 3,
            Status::TestsRefused => 4,
            Status::JustificationsRefused => 5,
            Status::CannotRead => 6,
            Status::CannotWrite => 7,
            Status::OutOfMemory => 8,
            Status::TooLarge => 9,
            Status::TooManyMutants => 10,
        }
    }
}
