//! What can be done with sockets without waiting, over a poll that tells which of them is ready.
#![tactic(auto)]

mod answers;
mod peers;
pub mod sockets;

pub use answers::{AcceptedPeer, ReadOutcome, Ready, WriteOutcome};
pub use peers::Sockets;
