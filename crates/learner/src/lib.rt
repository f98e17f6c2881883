//! A desk's log, how it learns what is decided and catches up, and the laws of agreement among
//! desks.
//!
//! The desks of a hall agree on one log by Paxos, as Lamport's 'Paxos Made Simple' has it. This
//! crate has the log of a desk, the steps of a learner, the events of a hall of desks, and the laws
//! that hold after every list of events, whatever is lost, repeated or late, and whenever a desk
//! restarts.
#![tactic(auto)]

pub mod event;
pub mod laws;
pub mod learning;
pub mod log;

pub use event::{DeskEvent, WorldEvent};
pub use learning::{on_behind, on_decided};
pub use log::{Log, ReserveFault};
