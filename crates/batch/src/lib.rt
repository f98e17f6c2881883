//! Requests to a desk, one after the other over connections that are kept; many commands that are
//! entered at one, each with an id of its own; the log of one, part after part; and the newest
//! sheet of a round.
#![tactic(auto)]

mod asking;
mod command_entered;
mod confirming;
mod dialing;
mod entering;
mod fault;
mod keeping;
mod lines_entered;
mod log_asked;
mod newest_asked;
mod probing;
mod watching;

pub use asking::Receiver;
pub use command_entered::enter_command;
pub use dialing::{ConnectionLoss, Contact, Dial};
pub use fault::BatchFault;
pub use keeping::ask_over;
pub use lines_entered::{Batch, enter_lines, told_answer};
pub use log_asked::ask_log;
pub use newest_asked::{RoundSheet, ask_newest};
pub use probing::knows_await;
pub use watching::Watch;
