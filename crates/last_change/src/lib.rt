//! Which entry of a log last changed the attempts of a competitor in a round, and which one entered
//! each attempt.
#![tactic(auto)]

mod entering;
mod origins;

pub use entering::{entered_at, last_entering};
pub use origins::{is_change, last_change, reads_change};
