//! How a desk makes ballots and proposes entries.
#![tactic(auto)]

pub mod fault;
mod gathering;
mod idle;
mod leading;
pub mod plan;
mod planning;
pub mod proposer;
mod proposing;
pub mod role;
mod steps;
pub mod votes;

pub use fault::{Refusal, StepFault};
pub use plan::Plan;
pub use proposer::Proposer;
pub use role::{Promises, PromisingDesk, Role};
pub use votes::Votes;
