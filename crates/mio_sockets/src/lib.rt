//! The links of a desk to the desks of its hall, over connections that a poll tells of. No socket
//! makes anybody wait.
#![tactic(auto)]

mod desk_links;
mod neighbour;
mod tellings;

pub use desk_links::{DeskLinks, SocketLinks, TcpNeighbour, neighbours};
pub use neighbour::Neighbour;
