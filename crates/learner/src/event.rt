//! What may happen at a desk, and in a hall of desks.

use acceptor::entry::Entry;
use acceptor::message::Message;

/// What may happen at a desk.
#[derive(PartialEq, Eq, Debug, Drop)]
pub enum DeskEvent {
    /// A client hands in an entry, to be decided at some position.
    Submit(Entry),
    /// The desk is to propose: by a new ballot, or by the one that it leads by.
    Start,
    /// Some time has passed.
    Tick,
    /// A message has come. It may have come before, and may be for another desk.
    Deliver(Message),
}

/// What may happen in a hall of desks, which are numbered from 1. An event at a number that no desk
/// has does nothing.
#[derive(PartialEq, Eq, Debug, Drop)]
pub enum WorldEvent {
    /// At this desk an entry is handed in.
    Submit(u8, Entry),
    /// This desk is to propose.
    Start(u8),
    /// At this desk some time has passed.
    Tick(u8),
    /// The k-th message ever sent, counted from 1, comes to its receiver. Where there is none,
    /// nothing happens.
    Deliver(u64),
    /// This desk loses what it has not stored: its role, its queue, and the greatest number that it
    /// has seen.
    Restart(u8),
}
