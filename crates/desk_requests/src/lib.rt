//! Requests to desks over TCP: single requests, commands that are entered line by line, a log, its
//! newest sheets, and how the desks of a hall are. The faults of the program are here too, each
//! with its line and its exit status.
#![tactic(auto)]

mod comparing;
mod connection;
mod drawing;
mod endings;
mod entering;
mod fault;
mod logs;
mod newest;
mod polling;
mod reasons;
mod report;
mod requests;
mod sockets;
mod timing;
mod waiting;

pub use entering::{enter_all, enter_one, may_enter};
pub use fault::{DeskFault, tell, tell_asking, tell_serving};
pub use log_rows::{ResultOwner, ShownEntries};
pub use logs::{LogForm, print_log};
pub use newest::print_newest;
pub use polling::{Inquiry, print_standings, watch_standings};
pub use reasons::{NoReasons, Reasons};
pub use requests::{Errand, carry};
pub use sockets::TcpDialer;
