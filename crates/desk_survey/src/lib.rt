//! How one desk of a hall is, asked four times a second over a connection that is kept, as steps
//! over bytes. It makes no system call and has no clock.
#![tactic(auto)]

pub mod laws;
mod survey;

pub use survey::{Reachability, Survey, SurveyAnswer};
