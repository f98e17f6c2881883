//! One direction of a connection.

ghost use Rattle.std.specs.Prelude.{◌≡◌};
ghost use Rattle.seal.specs.Records.{direction_byte};

/// Which way a stream goes. The client is the side that opened the connection.
#[derive(Clone, Copy, Debug, PartialEq, Eq)]
pub enum Direction {
    /// From the client to the server.
    ToServer,
    /// From the server to the client.
    ToClient,
}

impl Direction {
    /// The byte that stands for it in tags.
    pub fn byte(self) -> u8
        ensures { result ≡ direction_byte self }
    {
        match self {
            Direction::ToServer => 1,
            Direction::ToClient => 2,
        }
    }
}

/// One direction of a connection, with the connection's key.
#[derive(Clone, Copy, Drop)]
pub struct Channel {
    /// The connection's key (`connection_key`).
    pub key: [u8; 32],
    /// Which way the stream goes.
    pub direction: Direction,
}
