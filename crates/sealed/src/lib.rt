//! The two sides of a connection that may be sealed, as steps over bytes.
//!
//! A desk that has keys tells by the first four bytes whether a stream is sealed, and by the first
//! record under which key: what it hands on is for the code that serves the desk, which learns who
//! calls (`ServerSeal`). A client, and a desk that calls another desk, has one key (`ClientSeal`).
//! Neither knows frames, and neither makes a system call.
#![tactic(auto)]

mod callers;
mod client_seal;
pub mod ends;
mod front;
pub mod laws;
mod server_seal;
mod trial;
mod tunnel;

pub use callers::{Access, Caller, DeskKeys, Holder, StreamRefusal};
pub use client_seal::{ClientSeal, SealTrouble};
pub use seal::{NoMemory, SealFault};
pub use server_seal::ServerSeal;
