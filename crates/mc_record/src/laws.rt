//! What follows from the definitions. The functions do nothing: each has a law as its contract.
ghost use Rattle.mc_record.specs.Laws.{OldIsRead, OldIsRefused, WrittenIsRead};

/// What was written is read as the same record.
pub fn written_is_read()
    ensures { WrittenIsRead }
{}

/// A record of version 1 is read as the same record under its rules.
pub fn old_is_read()
    ensures { OldIsRead }
{}

/// A record of version 1 is refused where its rules are not those of the source.
pub fn old_is_refused()
    ensures { OldIsRefused }
{}
