//! What runs need of the outside.

/// The right to make threads, the gate that a worker passes before each test, and the closer of the
/// shared words.
#[derive(Clone, Copy)]
pub struct Means<'m, R, G, C> {
    pub rt: &'m R,
    pub gate: &'m G,
    pub closer: &'m C,
}
