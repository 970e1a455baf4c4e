//! A worked text: the functions do nothing.
ghost use Rattle.reread_law_printed.specs.parts.Worked.{TheParts, TheyStand};

/// The parts of `int f(int a,int b){return a&&b;}` with its probes. Its function and its rows stand
/// among its tokens, and its brackets belong together.
pub fn parts_of_a_text()
    ensures parts { TheParts }
    ensures stand { TheyStand }
{}
