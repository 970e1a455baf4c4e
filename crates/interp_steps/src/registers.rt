//! The registers of activations stand in one row, those of each activation from its first on.
ghost use Rattle.std.specs.Prelude.{◌≡◌, ◌+◌, ◌<◌, ◌≤◌, ◌^◌, ◌==◌, not, length, slice_set, IfSome};
ghost use Rattle.mc_stack.specs.Rooms.{with_values};
ghost use Rattle.interp_steps.specs.Registers.{path_hits, value_at, with_taken, wrapped_sum};

use crate::hits::hit;
use hit_sink::Probe;
use mc_stack::Stack;

/// The place of a register of the activation whose registers begin here.
#[inline(always)]
fn place(first: usize, register: u32) -> usize
    requires { first + register ≤ 2 ^ 42 }
    ensures { result ≡ first + register }
{
    first + register as usize
}

/// A register gets a value.
#[inline(always)]
pub fn set(registers: &mut Stack<u32>, first: usize, register: u32, value: u32)
    requires there { first + register < length registers.old.items }
    requires small { length registers.old.items ≤ 2 ^ 42 }
    ensures { registers.new ≡ with_values registers.old
        (slice_set registers.old.items (first + register) value) }
{
    registers.set(place(first, register), value);
}

/// A number is added to a register; sums wrap.
#[inline(always)]
pub fn add(registers: &mut Stack<u32>, first: usize, register: u32, more: u32)
    requires there { first + register < length registers.old.items }
    requires small { length registers.old.items ≤ 2 ^ 42 }
    ensures { registers.new ≡ with_values registers.old
        (slice_set registers.old.items (first + register)
        (wrapped_sum (value_at registers.old.items (first + register)) more)) }
{
    let at = place(first, register);
    let old = registers.get(at);
    registers.set(at, old.wrapping_add(more));
}

/// Whether a label's register is set, which says that the `switch` chose the label. It is set back.
#[inline(always)]
pub fn take(registers: &mut Stack<u32>, first: usize, register: u32) -> bool
    requires there { first + register < length registers.old.items }
    requires small { length registers.old.items ≤ 2 ^ 42 }
    ensures chosen { result ≡ not (value_at registers.old.items (first + register) == 0) }
    ensures back { registers.new ≡ with_taken result registers.old (first + register) }
{
    let is_set = registers.get(place(first, register)) != 0;
    if is_set {
        set(registers, first, register, 0);
    }
    is_set
}

/// A decision ends: the bit of its path is hit, where the decision came out. Where the run stopped
/// in it nothing is hit.
#[inline(always)]
pub fn hit_path<P: Probe>(
    outcome: Option<bool>,
    registers: &Stack<u32>,
    first: usize,
    register: u32,
    base: u32,
    bits: u32,
    probe: &mut P,
)
    requires there { IfSome outcome (λ _. first + register < length registers.now.items) }
    requires small { IfSome outcome (λ _. length registers.now.items ≤ 2 ^ 42) }
    requires bits { bits ≤ P.bits probe.old }
    ensures led { P.leads (path_hits outcome bits base
        (value_at registers.now.items (first + register))) probe.old probe.new }
    ensures bits { P.bits probe.new ≡ P.bits probe.old }
{
    match outcome {
        Some(_) => {
            let sum = registers.get(place(first, register));
            hit(bits, base.wrapping_add(sum), probe);
        }
        None => {}
    }
}
