//! Of the faults of a node only the least is kept.
ghost use Rattle.std.specs.Prelude.{◌≡◌, ◌++◌, List};
ghost use Rattle.types_faults.specs.declared.fault.Fault.{Fault};
ghost use Rattle.types_faults.specs.Faults.{fault_if, least_of};
ghost use Rattle.types_faults.specs.Faults as faults;
ghost use Rattle.types_faults.specs.Kept.{listed};

use crate::fault::{Fault, FaultKind};

/// The number of a kind: of two faults at one place that with the lesser number answers.
fn number(kind: FaultKind) -> u32
    ensures { result ≡ faults.number_of kind }
{
    match kind {
        FaultKind::Undeclared => 1,
        FaultKind::Redeclared => 2,
        FaultKind::Mismatch => 3,
        FaultKind::NotConstant => 4,
        FaultKind::DuplicateLabel => 5,
        FaultKind::NoBody => 6,
        FaultKind::Limit => 7,
    }
}

/// The first of two faults.
fn lesser_of(one: Fault, other: Fault) -> Fault
    ensures { result ≡ faults.lesser_of one other }
{
    if one.at < other.at {
        return one;
    }
    if other.at < one.at {
        return other;
    }
    if number(one.kind) <= number(other.kind) {
        one
    } else {
        other
    }
}

/// The first of two faults, where there is one.
pub fn lesser(one: Option<Fault>, other: Option<Fault>) -> Option<Fault>
    ensures { result ≡ faults.lesser one other }
{
    match (one, other) {
        (Some(one), Some(other)) => Some(lesser_of(one, other)),
        (Some(one), None) => Some(one),
        (None, other) => other,
    }
}

/// The first of a fault and one that is there where the test holds.
pub fn or_fault(fault: Option<Fault>, test: bool, kind: FaultKind, at: u32) -> Option<Fault>
    ensures { result ≡ least_of (listed fault ++ fault_if test kind at) }
{
    if test {
        lesser(fault, Some(Fault { kind, at }))
    } else {
        fault
    }
}

/// A fault where the test holds.
pub fn fault_where(test: bool, kind: FaultKind, at: u32) -> Option<Fault>
    ensures least { result ≡ least_of (fault_if test kind at) }
    ensures list { listed result ≡ fault_if test kind at }
{
    if test { Some(Fault { kind, at }) } else { None }
}

/// The first fault of a part and of what stands after it.
pub fn after(part: Option<Fault>, own: Option<Fault>) -> Option<Fault>
    ensures { (fs : List Fault) → own ≡ least_of fs → result ≡ least_of (listed part ++ fs) }
{
    match part {
        Some(fault) => lesser(Some(fault), own),
        None => own,
    }
}

/// The first fault of two parts and of their node.
pub fn after_two(one: Option<Fault>, other: Option<Fault>, own: Option<Fault>) -> Option<Fault>
    ensures { (fs : List Fault) → own ≡ least_of fs
        → result ≡ least_of (listed one ++ (listed other ++ fs)) }
{
    after(one, after(other, own))
}

/// The first fault of two parts, and of their node where the test holds.
pub fn two_or_fault(
    one: Option<Fault>,
    other: Option<Fault>,
    test: bool,
    kind: FaultKind,
    at: u32,
) -> Option<Fault>
    ensures { result
        ≡ least_of (listed one ++ (listed other ++ fault_if test kind at)) }
{
    after(one, or_fault(other, test, kind, at))
}

/// The first fault of three parts, and of their node where the test holds.
pub fn three_or_fault(
    one: Option<Fault>,
    other: Option<Fault>,
    third: Option<Fault>,
    test: bool,
    kind: FaultKind,
    at: u32,
) -> Option<Fault>
    ensures { result
        ≡ least_of (listed one ++ (listed other ++ (listed third ++ fault_if test kind at))) }
{
    after(one, two_or_fault(other, third, test, kind, at))
}
