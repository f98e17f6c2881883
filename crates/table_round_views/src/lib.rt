//! The pages of the score table about rounds.
#![tactic(auto)]

mod absent;
mod all_rounds;
mod changing;
mod closing;
mod comments;
mod opening;
mod proposal;
mod reopening;
mod round_forms;
mod scrambles;
mod unfinished;

pub use all_rounds::overview;
pub use round_forms::rounds_page;
