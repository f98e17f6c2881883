//! The desks of a hall as they run, the world of all their messages, and what the desks agree on.
//!
//! A world does a list of events among desks as they run, and records it. Over every list the desks
//! agree: on their logs, on what they answer from them, and on the sheets.

mod desks;
pub mod laws;
mod world;

pub use learner::event::WorldEvent;
pub use replica::roles::NodeFault;
pub use world::{World, WorldFault};
