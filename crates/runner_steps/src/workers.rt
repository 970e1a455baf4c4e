//! How many workers run tests.
ghost use Rattle.std.specs.Prelude.{◌≡◌, ◌≤◌};
ghost use Rattle.mc_limits.specs.Limits.{most_workers};
ghost use Rattle.runner_steps.specs.Workers.{workers_for};

/// As many workers as are asked for, but no more than there are tests, and at least one. Takes no
/// memory.
pub fn workers_for(asked: u32, tests: usize) -> u32
    requires { (1 ≤ asked) × (asked ≤ most_workers) }
    ensures count { result ≡ workers_for asked tests }
    ensures within { (1 ≤ result) × (result ≤ asked) }
{
    if tests >= asked as usize {
        asked
    } else if tests == 0 {
        1
    } else {
        tests as u32
    }
}
