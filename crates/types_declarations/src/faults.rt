//! Faults of declarations, in their order.
ghost use Rattle.std.specs.Prelude.{◌≡◌, ◌++◌, [], List, option_map};
ghost use Rattle.types_faults.specs.declared.fault.Fault.{Fault};
ghost use Rattle.types_faults.specs.Faults.{least_of, unless_faulty};
ghost use Rattle.types_scopes.specs.Types.{type_of};
ghost use Rattle.types_faults.specs.Kept.{listed};

use crate::values::unless_fault;
use types_faults::{Fault, lesser};
use types_scopes::CType;

/// The first of two faults that may be there.
#[tactic(auto, using(types_scopes::proofs::Squeezed::joined_listed, types_scopes::proofs::Squeezed::least_listed))]
pub fn first_fault(one: Option<Fault>, more: Option<Fault>) -> Option<Fault>
    ensures { result ≡ least_of (listed one ++ listed more) }
{
    lesser(one, more)
}

/// The type, unless there is a fault.
pub(crate) fn unless(fault: Option<Fault>, of: Option<CType>) -> Option<CType>
    ensures { (fs : List Fault) → fault ≡ least_of fs
        → option_map type_of result ≡ unless_faulty fs (option_map type_of of) }
{
    unless_fault(fault, of)
}
