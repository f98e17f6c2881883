//! How a run ends that reads lines or a command line: the exit status of each fault, and its line.
#![tactic(auto)]

mod faults;
mod refusals;
mod replays;

pub use faults::{status_of_run, tell_fault, tell_replay, tell_run};
pub use refusals::{tell_bad_number, tell_no_arguments, tell_parse_error};
pub use replays::run_replay;
