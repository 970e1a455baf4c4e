//! What the workers share.
use interp_trail::Layout;
use mc_probe::Instrumented;
use mc_typed::TestPlan;
use std::sync::atomic::AtomicU32;

/// The program and the layout of its bits, the tests, and the number of the next test, which each
/// worker counts up where it takes a test.
#[derive(Clone, Copy)]
pub(crate) struct Task<'t, 'a> {
    pub(crate) program: &'t Instrumented<'a>,
    pub(crate) layout: Layout,
    pub(crate) plans: &'t [TestPlan],
    pub(crate) next: &'t AtomicU32,
}
