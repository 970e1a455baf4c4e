//! External declarations, and a whole source (C17 6.9).
pub mod item;
pub mod unit;
