//! The sockets of peers over TCP, over one poll that tells which of them is ready. No socket makes
//! anybody wait.

mod agenda;
mod connecting;
mod outcomes;
mod peer_sockets;
mod random;
mod streams;
mod tokens;

pub use connecting::{CallerSocket, Connector, TcpConnector};
pub use outcomes::{is_waiting, taken_by};
pub use peer_sockets::PeerSockets;
pub use random::{drawn, mixed, mixed_apart, mixed_keeps};
pub use tokens::own_token;
