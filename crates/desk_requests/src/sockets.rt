//! Connections to desks over TCP, on which a desk is waited for this long for each request and no
//! longer.

ghost use Rattle.std.specs.Prelude.{◌≡◌, IfOk};
ghost use Rattle.sealed.specs.ends.ClientStreams.{own_key};

use crate::connection::OpenConnection;
use crate::drawing::drawn_bytes;
use crate::endings::{ends_so_too, sure_ending};
use crate::waiting::Wait;
use batch::{ConnectionLoss, Contact, Dial};
use client::ClientFault;
use sealed::ends::ClientStream;
use std::alloc::Global;
use std::io::ErrorKind;
use std::net::{SocketAddr, TcpStream, ToSocketAddrs};
use std::time::Duration;
use std::{io, thread};
use wire::Frame;

/// How long a client rests after this many tries: 250 microseconds at first, twice as long after
/// every third try, and at most 32 milliseconds.
fn rest_after(tries: u32) -> Duration {
    Duration::from_micros(250 << (tries / 3).min(7))
}

/// Connections over TCP.
#[derive(Drop)]
pub struct TcpDialer<'a> {
    rt: &'a HostRuntime,
    /// The one that is open, if there is one.
    open: Option<OpenConnection<'a>>,
}

impl<'a> TcpDialer<'a> {
    /// Connections of this process.
    pub fn new(rt: &'a HostRuntime) -> TcpDialer<'a> {
        TcpDialer { rt, open: None }
    }
}

/// Opens a connection to the first of the addresses that answers, and says to which.
fn connected(
    rt: &HostRuntime,
    address: &str,
    wait: &Wait<'_>,
) -> io::Result<(TcpStream, SocketAddr)> {
    let mut last = io::Error::from(ErrorKind::InvalidInput);
    for to in address.to_socket_addrs(rt)? {
        match TcpStream::connect_timeout(rt, &to, wait.left()?) {
            Ok(stream) => return Ok((stream, to)),
            Err(error) => last = error,
        }
    }
    Err(last)
}

/// The caller's end of a new connection, under this key, if there is one.
fn call_of(alloc: Global, key: Option<[u8; 32]>, random: [u8; 16]) -> io::Result<ClientStream>
    ensures { IfOk result (λ call. own_key call ≡ key) }
{
    match ClientStream::new(alloc, key, random) {
        Ok(call) => Ok(call),
        Err(_) => Err(io::Error::from(ErrorKind::OutOfMemory)),
    }
}

/// Begins what goes over a new connection to a desk, under this key, if there is one.
fn begun<'a>(
    rt: &'a HostRuntime,
    stream: TcpStream,
    to: SocketAddr,
    wait: Wait<'a>,
    key: Option<[u8; 32]>,
) -> io::Result<OpenConnection<'a>>
    ensures { IfOk result (λ c. own_key c.call ≡ key) }
{
    let alloc = rt.alloc();
    // where it is refused, the request is only slower
    let _ = stream.set_nodelay(true);
    stream.set_write_timeout(Some(wait.left()?))?;
    let random = drawn_bytes(rt)?;
    let call = call_of(alloc, key, random)?;
    let mut connection = OpenConnection::new(alloc, stream, to, wait, call);
    match connection.open() {
        Err(error) if error.kind() == ErrorKind::OutOfMemory => Err(error),
        // where it failed, the connection knows how it ends
        _ => Ok(connection),
    }
}

/// Opens a connection for a request, under the contact's key, if it has one.
fn dialed<'a>(rt: &'a HostRuntime, contact: Contact<'_>) -> io::Result<OpenConnection<'a>>
    ensures { IfOk result (λ c. own_key c.call ≡ contact.entry.key) }
{
    let wait = Wait::new(rt, contact.patience)?;
    let (stream, to) = connected(rt, contact.address, &wait)?;
    begun(rt, stream, to, wait, contact.key)
}

/// Whether a desk that ended a connection as a desk without a key, or with another one, begins the
/// next one in the same way. Only a preface is sent on it, and no key has a part in that.
fn is_there(rt: &HostRuntime, first: &OpenConnection<'_>) -> bool {
    let Ok(left) = first.wait.left() else {
        return false;
    };
    let Ok(stream) = TcpStream::connect_timeout(rt, &first.to, left) else {
        return false;
    };
    match begun(rt, stream, first.to, first.wait, Some([0; 32])) {
        Ok(second) => ends_so_too(first.ending, second.ending, second.call.is_open()),
        Err(_) => false,
    }
}

impl<'a> Dial for TcpDialer<'a> {
    ghost use Rattle.std.specs.Prelude.{None};

    ghost dialed = { λ _. None };

    fn dial(&mut self, contact: Contact<'_>) -> io::Result<()> {
        self.open = None;
        let connection = dialed(self.rt, contact)?;
        self.open = Some(connection);
        Ok(())
    }

    fn ask(&mut self, request: &Frame) -> Result<Frame, ClientFault> {
        match &mut self.open {
            Some(connection) => connection.ask(request),
            None => Err(ClientFault::NoAnswer),
        }
    }

    /// That the keys don't fit is said where a second connection shows it too.
    fn hang_up(&mut self) -> ConnectionLoss {
        let Some(connection) = self.open.take() else {
            return ConnectionLoss::Own;
        };
        let ending = connection.ending;
        let is_told = matches!(ending, ConnectionLoss::NoKey | ConnectionLoss::OtherKey);
        sure_ending(ending, is_told && is_there(self.rt, &connection))
    }

    fn pause(&self, tries: u32) {
        thread::sleep(self.rt, rest_after(tries));
    }
}
