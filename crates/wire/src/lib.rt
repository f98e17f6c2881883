//! Frames: what desks and their clients say to each other over a connection, as bytes and back.
//!
//! `encode` gives the bytes of a frame; a `FrameReader` takes a stream in whatever pieces it comes
//! and gives its frames. `docs/FORMATS.md` has the format, for clients in other languages.
#![tactic(auto)]

pub mod bytes;
mod decided;
pub mod entries;
pub mod fault;
mod fields;
pub mod frame;
pub mod laws;
mod log_entries;
mod reader;
mod reading;
mod run;
pub mod standing;
mod stream;
pub mod values;
mod writing;

pub use bytes::Bytes;
pub use entries::Entries;
pub use fault::WireFault;
pub use formats::SheetStyle;
pub use frame::{Frame, FrameBody};
pub use reader::{FrameReader, Received, read_pieces};
pub use standing::{DeskStatus, Difference, Lengths};
pub use std::alloc::AllocError as NoMemory;
pub use values::{ClientRefusal, CommandState, DeskRole, Version};
pub use writing::encode;
