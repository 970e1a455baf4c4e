//! Units of fuel.
ghost use Rattle.std.specs.Prelude.{◌≡◌, ◌≤◌};
ghost use Rattle.interp_steps.specs.Hits.{hits_after, IsSpent};

use crate::hits::hit_some;
use hit_sink::Probe;

/// A unit is spent, and then the bit of what it is spent for is hit, where there is one. Where no
/// unit is left nothing is hit.
#[inline(always)]
pub fn spend_for<P: Probe>(fuel: &mut u32, bits: u32, bit: Option<u32>, probe: &mut P) -> bool
    requires { bits ≤ P.bits probe.old }
    ensures spent { IsSpent result fuel.old fuel.new }
    ensures led { P.leads (hits_after result bits bit) probe.old probe.new }
    ensures bits { P.bits probe.new ≡ P.bits probe.old }
{
    if *fuel == 0 {
        return false;
    }
    *fuel -= 1;
    hit_some(bits, bit, probe);
    true
}
