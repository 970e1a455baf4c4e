//! Records that can be written.
ghost use Rattle.mc_record.specs.Kept.{IsKept};
ghost use Rattle.mc_record.specs.Seen.{kept_of};

use mc_record::Record;

/// A record that keeps the limits of records.
#[derive(Drop)]
pub struct Writable {
    pub kept: Record,
    ghost limits: { IsKept (kept_of kept) },
}
