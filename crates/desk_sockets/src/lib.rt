//! The connection of a dialogue to a desk of a hall, whether a client's or another desk's. No
//! socket makes anybody wait.
#![tactic(auto)]

mod asking;
mod desk_connection;
mod desk_stream;
mod endings;
mod keyed_stream;
mod socket_connection;

pub use desk_connection::{ConnectionOutcome, ConnectionTrouble, DeskConnection, Heard, Opening};
pub use desk_stream::{DeskStream, DialogueChange, DialogueStream, address_of};
pub use sealed::ends::CallTrouble;
pub use socket_connection::{CallingDesk, SocketConnection};
