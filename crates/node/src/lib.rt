//! One desk of a hall, which takes one event at a time.
//!
//! It is a replicated log, and beside it what the log's entries have come to, so that it answers
//! what has become of a command, and gives the result sheets.
#![tactic(auto)]

mod node;

pub use answers::{Desk, IdState, LogSheetFault};
pub use learner::event::DeskEvent;
pub use node::Node;
pub use replica::NodeFault;
