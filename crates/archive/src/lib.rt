//! The archive of a log: the lines that `replay` reads in the log's place.
#![tactic(auto)]

pub mod laws;
mod writing;

pub use lines::RunFault;
pub use writing::{write_log, write_log_from};
