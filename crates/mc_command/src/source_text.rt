//! The texts that are made of a source alone.

/// A text that is made of a source, without its tests.
#[derive(Clone, Copy)]
pub enum SourceText {
    /// The program with its probes: `instrument`
    Instrumented,
    /// The source itself, made of a preprocessed text: `adapt`
    Adapted,
}
