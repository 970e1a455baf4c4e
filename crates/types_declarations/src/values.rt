//! Values, or none where there is a fault, by a function of any type: what is proved of a type of
//! trees at such a step is costly.
ghost use Rattle.std.specs.Prelude.{◌≡◌};
ghost use Rattle.types_faults.specs.Faults.{unless_faulty};
ghost use Rattle.types_faults.specs.Kept.{listed};

use types_faults::Fault;

/// The value, unless there is a fault.
pub(crate) fn unless_fault<T: Drop>(fault: Option<Fault>, value: Option<T>) -> Option<T>
    ensures { result ≡ unless_faulty (listed fault) value }
{
    match fault {
        Some(_) => None,
        None => value,
    }
}
