//! A desk that serves all its clients side by side, in one thread.
#![tactic(auto)]

mod dear;
mod driven;
mod ends;
pub mod laws;
mod links;
mod notes;
mod own_frames;
mod own_ticks;
mod serving_each;
mod steps;
mod table;
mod turns;

pub use driven::Rounds;
pub use ends::{EndReason, ServingEnd, ServingsOutcome};
pub use links::PeerLinks;
pub use own_frames::{OwnFrames, OwnLinks};
pub use serving_each::serve_each;
pub use table::ServingOptions;
