//! A desk's log, read as a meet, and what is printed of it: a competition's file with its results,
//! and its results as JSON.
#![tactic(auto)]

mod fault;
mod files;
pub mod imports;
mod logs;
mod results;

pub use fault::{ExportsFault, ResultsFault, tell_export, tell_notes, tell_results};
pub use files::{print_export, print_filled};
pub use logs::{LogFault, opens_any, read_log};
pub use results::print_results;
