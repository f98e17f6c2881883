//! The link from this desk to one other desk: which frames wait to be sent, what of them was sent,
//! and when a connection is to be opened, written to and closed.
//!
//! A link makes no system call and has no clock: its caller says what became of the connection, and
//! at what time. So one thread can drive the links to all other desks, over sockets that don't
//! block.
#![tactic(auto)]

pub mod laws;
mod link;
mod notices;
mod stages;

pub use link::{Link, MOST_WAITING};
pub use notices::{Notice, Notices, Outage};
pub use stages::{LinkAction, LinkStage, PushOutcome};
