//! What people write on a paper scorecard, read as an outcome of an attempt.
//!
//! A field is a time with its penalties, the moves of a solution in fewest moves, or a result of
//! multi-blind, by the event; or a word or a sign that there is no result. [`read`] reads it, and
//! its fault says in a few words what is wrong.
#![tactic(auto)]

mod digits;
mod fault;
mod laws;
mod multi;
mod reading;
mod solutions;
mod times;
mod words;

pub use fault::ScorecardFault;
pub use laws::{
    entered_reads_back, number_of_moves_is_no_solution, sheet_reads_back, spelled_once,
};
pub use reading::read;
