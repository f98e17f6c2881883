//! A caller's end of a connection with a desk, with a key or without one, as steps over bytes.
//!
//! With a key what goes both ways is sealed (`crate::ClientSeal`); without one it goes as it is,
//! and only a desk that asks for a key is distinguished from one that does not. It knows no frames,
//! and makes no system call.

mod client_stream;
pub mod laws;
mod plain;
mod trouble;

pub use crate::{NoMemory, SealFault};
pub use client_stream::ClientStream;
pub use trouble::CallTrouble;
