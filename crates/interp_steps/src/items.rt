//! Items of arrays.
ghost use Rattle.std.specs.Prelude.{◌≡◌, ◌+◌, ◌*◌, ◌<◌, ◌≤◌, IfNone, IfSome};
ghost use Rattle.mc_limits.specs.Limits.{most_run_cells};

/// The first cell of an item.
fn place(base: u32, length: u32, stride: u32, index: u32) -> u32
    requires within { index < length }
    requires small { base + length * stride ≤ most_run_cells }
    ensures { result ≡ base + index * stride }
{
    base + index * stride
}

/// The first cell of an item by its index, where the array has so many.
#[inline(always)]
pub fn item(base: u32, length: u32, stride: u32, index: u64) -> Option<u32>
    requires { base + length * stride ≤ most_run_cells }
    ensures there { IfSome result (λ k. (index < length) × (k ≡ base + index * stride)) }
    ensures beyond { IfNone result (length ≤ index) }
{
    if index < u64::from(length) {
        Some(place(base, length, stride, index as u32))
    } else {
        None
    }
}
