//! Connections that are begun, and nobody waits for.

use crate::sockets::tokens::own_token;
use mio::net::TcpStream;
use mio::{Interest, Registry};
use std::io;
use std::io::{ErrorKind, Read, Write};
use std::net::{Net, Shutdown, SocketAddr};
use std::random::RandomSource;

/// The socket of a connection that was begun. No call waits: one that would is to be made again
/// once the socket is ready, as `is_waiting` says of its error.
pub trait CallerSocket: Read + Write {
    /// Whether the connection is there, or else what went wrong; that it isn't there yet is
    /// `NotConnected`.
    fn connected(&self) -> Result<(), ErrorKind>;

    /// Tells the other side that no more is sent. False: it isn't known.
    fn shut(&self) -> bool;
}

impl CallerSocket for TcpStream {
    fn connected(&self) -> Result<(), ErrorKind> {
        match self.take_error() {
            Ok(None) => {}
            Ok(Some(error)) | Err(error) => return Err(error.kind()),
        }
        match self.peer_addr() {
            Ok(_) => Ok(()),
            Err(error) => Err(error.kind()),
        }
    }

    fn shut(&self) -> bool {
        self.shutdown(Shutdown::Write).is_ok()
    }
}

/// Where connections come from, and random bytes for each of them.
pub trait Connector: RandomSource {
    type Socket: CallerSocket + Drop;

    /// Begins a connection to an address. Its socket has this number among those of the program's
    /// own.
    fn connect(&self, number: u8, address: SocketAddr) -> io::Result<Self::Socket>;
}

/// Connections over TCP, whose sockets a poll tells of, each under `own_token`.
#[derive(Drop)]
pub struct TcpConnector<'a, R> {
    system: &'a R,
    registry: Registry,
}

impl<'a, R> TcpConnector<'a, R> {
    /// Connections of which the poll of this registry tells.
    pub fn new(system: &'a R, registry: Registry) -> TcpConnector<'a, R> {
        TcpConnector { system, registry }
    }
}

impl<R: RandomSource> RandomSource for TcpConnector<'_, R> {
    fn fill_bytes(&self, buf: &mut [u8]) -> io::Result<()> {
        self.system.fill_bytes(buf)
    }
}

impl<R: Net + RandomSource> Connector for TcpConnector<'_, R> {
    type Socket = TcpStream;

    fn connect(&self, number: u8, address: SocketAddr) -> io::Result<TcpStream> {
        let mut stream = TcpStream::connect(self.system, address)?;
        // It only makes frames slower where it is refused.
        let _ = stream.set_nodelay(true);
        let interest = Interest::READABLE | Interest::WRITABLE;
        self.registry
            .register(&mut stream, own_token(number), interest)?;
        Ok(stream)
    }
}
