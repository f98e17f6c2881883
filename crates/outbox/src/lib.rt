//! What was entered at a score table and is under way to the hall's log: one list, from the journal
//! beside the program to the desks.
//!
//! An item is one entry, an id and a text. It is never changed. Its line is in the journal before
//! it is submitted; it is submitted until the log has an entry of its id; and what became of it is
//! what the log answered. The crate makes no system call and has no clock.
#![tactic(auto)]

mod hall_name;
mod item;
mod items;
mod journal;
mod journal_lines;
pub mod laws;
mod outbox;
mod sending;
mod state;

pub use hall_name::HallName;
pub use item::{Item, QueueOutcome};
pub use journal::{Journal, JournalFault, read_journal};
pub use journal_lines::{JournalLine, read_line};
pub use outbox::Outbox;
pub use state::{ItemState, state_of};
