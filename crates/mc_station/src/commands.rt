//! The commands: each gives the reply to what its files were accepted as.

pub mod adapt;
pub mod analyse;
pub mod functions;
pub mod instrument;
pub mod judge;
pub mod list;
pub mod merge;
pub mod mutate;
pub mod needs;
pub mod record;
pub mod reduce;
pub mod report;
pub mod results;
pub mod selfload;
pub mod vectors;
pub mod watch;
