//! Serving a desk: what is done for each frame that a connection brings, and how a connection ends.
//!
//! A frame of a desk is delivered, and a client's is answered. What a desk says is pushed as frames,
//! to itself as to the others.
#![tactic(auto)]

mod calls;
mod connection;
mod copies;
mod differing;
mod ends;
mod events;
mod frames;
pub mod laws;
mod own_ticks;
mod peers;
mod permission;
mod pushes;
mod replies;
mod request;
mod requests;
mod runs;
mod session;
mod source;
mod standing;
mod streams;

pub use answers::Desk;
pub use connection::Connection;
pub use differing::{AwaitRequest, awaited_by, differs_by, first_difference, known_after};
pub use ends::{ConnectionEnd, ServingOutcome};
pub use own_ticks::tick;
pub use peers::Peers;
pub use permission::Permission;
pub use source::Source;
pub use streams::{serve_connection, serve_source};
