//! A source with a mark on each of its lines: the worst verdict on what begins there.
#![tactic(auto)]

mod ends;
mod iterators;
mod laws;
mod line;
mod line_mark;
mod listing;
mod margin;
mod margins;
mod mark;
mod table;

pub use iterators::{lines, strip};
pub use laws::{
    lines_are_one, listing_has_source, marks_are_worst, places_are_on_lines, text_has_lines,
};
pub use line::{Line, Lines};
pub use listing::write_listing;
pub use margins::Strip;
