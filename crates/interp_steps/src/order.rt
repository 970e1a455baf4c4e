//! The order of evaluation.
ghost use Rattle.std.specs.Prelude.{◌≡◌};

/// The operands of an operator in the order in which they are evaluated: the left one first. C17
/// 6.5p3 leaves the order open.
#[inline(always)]
pub fn in_order<T>(left: T, right: T) -> (T, T)
    ensures first { result.0 ≡ left }
    ensures second { result.1 ≡ right }
{
    (left, right)
}
