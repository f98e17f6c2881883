//! Which desk of a hall is asked for its log, and when.
//!
//! A program that keeps a copy of the hall's log follows one desk at a time: it asks it for what
//! the log has beyond the copy, over a `KeptConnection`, four times a second. It moves on to the
//! next desk where this one is silent, is behind, or can't be reached. A `Follower` makes no system
//! call and has no clock: its caller says what came of the answers, and at what time.
#![tactic(auto)]

mod follower;
pub mod laws;
mod stages;

pub use follower::Follower;
pub use stages::{AnswerWorth, FollowAction};
