//! Sums and numbers, as far as they are counted.
ghost use Rattle.std.specs.Prelude.{◌≡◌, ◌+◌};
ghost use Rattle.types_rules.specs.Profile as profile;

/// So many cells and so many more, or the greatest number of 64 bits.
pub fn sum_of(before: u64, more: u64) -> u64
    ensures { result ≡ profile.sum_of before more }
{
    before.saturating_add(more)
}

/// A number, as far as 32 bits count it.
pub fn counted(number: usize) -> u32
    ensures { result ≡ profile.counted number }
{
    number.min(u32::MAX as usize) as u32
}

/// So many and so many more, as far as 32 bits count them.
pub fn counted_sum(before: u32, more: u32) -> u32
    ensures { result ≡ profile.counted (before + more) }
{
    before.saturating_add(more)
}
