//! A connection behind its door: what comes over it is let in as the desk's keys have it, what is
//! let in is served as far as the caller may ask, and the answers are sealed for a holder of a key.
//!
//! `sealed` knows no frames, and `serving` knows no keys: here they meet. A guarded connection has
//! the calls of a `serving::Connection`, over the bytes of the stream itself.
#![tactic(auto)]

pub mod laws;
mod locked_connection;
mod permitting;

pub use locked_connection::LockedConnection;
pub use permitting::permission_of;
pub use sealed::{Access, Caller, DeskKeys, Holder, NoMemory};
