//! When a desk takes a Tick of itself.
//!
//! A desk takes steps of the protocol only when something comes in. A Tick makes a desk that has
//! commands in its queue try again, and makes an idle desk report to the others how long its log
//! is, so that it is sent what it lacks. A `Ticker` says when a Tick is due: after a pause in which
//! the log has not grown. Desks that tried again at the same moment would outbid each other, so the
//! pause depends on the desk's number, and it grows as long as the log does not. A `Ticker` has no
//! clock: its caller says what time it is, in milliseconds since any fixed moment.
#![tactic(auto)]

pub mod laws;
mod period;
mod ticker;

pub use period::Period;
pub use ticker::Ticker;
