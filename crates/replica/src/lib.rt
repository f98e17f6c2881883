//! A replicated log at one desk: the protocol's steps over the store that keeps what they change.
//!
//! A desk takes part in the protocol, as Lamport's 'Paxos Made Simple' has it. Each event makes at
//! most one change to what is stored. It is saved before the messages of the event are handed out,
//! and these may leave the desk once it is settled. What a log's entries mean is not its matter.
#![tactic(auto)]

mod entries;
mod handling;
mod lengths;
mod replica;
pub mod roles;

pub use crate::roles::NodeFault;
pub use learner::event::DeskEvent;
pub use replica::Replica;
