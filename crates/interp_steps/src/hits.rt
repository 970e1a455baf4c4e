//! Bits that are hit.
ghost use Rattle.std.specs.Prelude.{◌≡◌, ◌≤◌};
ghost use Rattle.interp_steps.specs.Hits.{hits_after, hits_of, hits_of_some};

use hit_sink::Probe;

/// A bit is hit where it is one of so many.
#[inline(always)]
pub fn hit<P: Probe>(bits: u32, bit: u32, probe: &mut P)
    requires { bits ≤ P.bits probe.old }
    ensures led { P.leads (hits_of bits bit) probe.old probe.new }
    ensures bits { P.bits probe.new ≡ P.bits probe.old }
{
    if bit < bits {
        probe.hit(bit);
    }
}

/// The same where there is a bit.
#[inline(always)]
pub(crate) fn hit_some<P: Probe>(bits: u32, bit: Option<u32>, probe: &mut P)
    requires { bits ≤ P.bits probe.old }
    ensures led { P.leads (hits_of_some bits bit) probe.old probe.new }
    ensures bits { P.bits probe.new ≡ P.bits probe.old }
{
    if let Some(there) = bit {
        hit(bits, there, probe);
    }
}

/// The bit of what follows a part of a run is hit, where the part came out. Where the run stopped
/// in it nothing is hit.
#[inline(always)]
pub fn hit_after<P: Probe>(came_out: bool, bits: u32, bit: Option<u32>, probe: &mut P)
    requires { bits ≤ P.bits probe.old }
    ensures led { P.leads (hits_after came_out bits bit) probe.old probe.new }
    ensures bits { P.bits probe.new ≡ P.bits probe.old }
{
    if came_out {
        hit_some(bits, bit, probe);
    }
}
