//! The fault of a node, from those of its parts in their order.
ghost use Rattle.std.specs.Prelude.{◌≡◌, ◌++◌, []};
ghost use Rattle.types_faults.specs.Faults.{least_of};
ghost use Rattle.types_faults.specs.Kept.{listed};

use types_faults::{Fault, lesser};

/// Of one part.
pub fn of_one(one: Option<Fault>) -> Option<Fault>
    ensures { result ≡ least_of (listed one ++ []) }
{
    match one {
        Some(fault) => Some(fault),
        None => None,
    }
}

/// Of two parts.
pub fn of_two(one: Option<Fault>, other: Option<Fault>) -> Option<Fault>
    ensures { result ≡ least_of (listed one ++ (listed other ++ [])) }
{
    let rest = of_one(other);
    match one {
        Some(fault) => lesser(Some(fault), rest),
        None => rest,
    }
}

/// Of three parts.
pub fn of_three(one: Option<Fault>, two: Option<Fault>, three: Option<Fault>) -> Option<Fault>
    ensures { result ≡ least_of (listed one ++ (listed two ++ (listed three ++ []))) }
{
    let rest = of_two(two, three);
    match one {
        Some(fault) => lesser(Some(fault), rest),
        None => rest,
    }
}

/// Of four parts.
pub fn of_four(
    one: Option<Fault>,
    two: Option<Fault>,
    three: Option<Fault>,
    four: Option<Fault>,
) -> Option<Fault>
    ensures { result
        ≡ least_of (listed one ++ (listed two ++ (listed three ++ (listed four ++ [])))) }
{
    let rest = of_three(two, three, four);
    match one {
        Some(fault) => lesser(Some(fault), rest),
        None => rest,
    }
}
