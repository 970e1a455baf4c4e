//! Statements (C17 6.8).
pub mod block_item;
pub mod for_start;
pub mod statement;
