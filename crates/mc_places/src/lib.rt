//! Places in the files that a preprocessed text comes from, by its line markers.
#![tactic(auto)]

mod byte;
mod comment;
mod laws;
mod line;
mod marker;
mod markers;
mod name;
mod origin;
mod places;
mod starts;

pub use laws::{
    bytes_stand_on_lines, lines_go_up, markers_are_lexers, markers_give_lines, no_marker_no_place,
};
pub use origin::Origin;
pub use places::Places;
