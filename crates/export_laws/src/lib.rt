//! The results of rounds in a competition's file, worked out by hand. Each is the contract of a
//! function that does nothing.
#![tactic(auto)]

mod worked;

pub use worked::worked_results;
