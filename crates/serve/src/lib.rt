//! A desk that serves: its file is opened, and the clients that come to its address are served side
//! by side.
#![tactic(auto)]

mod closing;
mod doors;
mod fault;
mod hall;
mod home;
mod opening;
mod running;
mod telling;
mod twins;

pub use fault::ServeFault;
pub use hall_file::service::{Service, StoreOrigin};
pub use opening::has_bytes;
pub use running::{serve, serve_node};
