//! A hall of desks: a script of events from a reader, one a line, and what the desks say to one
//! another, refuse, and come to decide.
#![tactic(auto)]

mod printing;
mod running;
mod scripts;
pub mod world;

pub use lines::{RunFault, lines_are_parted};
pub use running::hall;
pub use scripts::{event_of, one_script};
