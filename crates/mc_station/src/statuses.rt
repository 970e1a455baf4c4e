//! Laws on what each status says.
ghost use Rattle.mc_station.specs.Statuses as laws;

/// A status other than 0 and 1 comes only where it has its cause: with 2 the words are no command,
/// with 3 the source is refused, with 4 the tests, a record or a pair of records, after a source
/// that is accepted, with 5 the justifications, after what goes before them, with 6 a file that is
/// asked for cannot be read, with 9 a matrix does not fit, and with 10 there are too many mutants.
pub fn statuses_have_causes()
    ensures { laws.StatusesHaveCauses }
{}

/// With 0 and 1 nothing is put on the errors' sink.
pub fn texts_are_alone()
    ensures { laws.TextsAreAlone }
{}

/// Where the words, a file, the matrix or the mutants are refused, and what goes before them is
/// accepted, a reply with this status is called for.
pub fn causes_call()
    ensures { laws.CausesCall }
{}

/// A file is asked for only after those before it were accepted, and justifications only where the
/// matrix fits.
pub fn asked_in_turn()
    ensures { laws.AskedInTurn }
{}

/// Nothing is written on the output but with 0 and 1, and with 7 where the text of 0 or 1 was put
/// in part. With 8 nothing is put on the errors' sink either.
pub fn refusals_write_nothing()
    ensures output { laws.RefusalsWriteNothing }
    ensures part { laws.PartsWriteNothing }
    ensures errors { laws.MemoryWritesNothing }
{}
