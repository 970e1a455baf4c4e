//! Counters of bits, labels and registers, which go on as the walk comes to each part.
ghost use Rattle.std.specs.Prelude.{◌≡◌, ◌+◌, ◌-◌, ◌^◌, min};

/// Counts one on, as far as the type goes, and gives the number before.
pub fn count(counter: &mut u32) -> u32
    ensures number { result ≡ counter.old }
    ensures more { counter.new ≡ min (counter.old + 1) (2 ^ 32 - 1) }
{
    let number = *counter;
    *counter = number.saturating_add(1);
    number
}
