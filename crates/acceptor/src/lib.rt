//! One desk's promises and votes, and the messages of the protocol.
//!
//! The desks of a hall agree on one log by Paxos, as Lamport's 'Paxos Made Simple' has it, one
//! position of the log after the other. This crate has the words of that protocol (ballots,
//! entries, votes, messages, what a desk stores) and the steps of an acceptor: what a desk stores
//! and answers when it is asked for a promise or for a vote. The steps change nothing themselves:
//! each gives the one change that is to be stored before its answer is sent.
#![tactic(auto)]

pub mod ballot;
pub mod entry;
pub mod message;
pub mod sending;
pub mod steps;
pub mod stored;

pub use ballot::Ballot;
pub use entry::{Entry, EntryFault};
pub use message::{Body, Message, Messages, Report};
pub use std::alloc::AllocError as NoMemory;
pub use steps::{LogView, on_accept, on_prepare};
pub use stored::{Change, Stored, Vote};

/// The most entries in a log. Positions are below it.
pub const MOST_ENTRIES: u32 = 65_536;
