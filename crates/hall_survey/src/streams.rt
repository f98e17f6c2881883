//! The connections to the desks that are asked. A crate that drops them has to prove for dozens of
//! types how each is dropped. So nobody does: they are lent for as long as the program runs.

ghost use Rattle.std.specs.Prelude.{◌≡◌, ◌≤◌, IfOk, None, length};
ghost use Rattle.desk_sockets.specs.{Connections.IsFresh, Keying.keys_of};
ghost use Rattle.wire.specs.Ranges.{IsDesk};

use crate::asked_stream::AskedStream;
use crate::hall_desks::HallDesks;
use desk_sockets::{DeskStream, DialogueStream, SocketConnection, address_of};
use mio::Registry;
use pages::TcpBrowsers;
use polled::sockets::TcpConnector;
use std::alloc::{AllocError, Global};
use std::io;
use std::net::{Net, SocketAddr};
use std::random::RandomSource;
use std::time::Clock;

/// The number of the first of the program's own sockets that are the desks'.
const FIRST_SOCKET: u8 = 10;

/// A hall whose desks are asked.
#[derive(Clone, Copy)]
pub struct Hall<'a> {
    /// The number of the hall.
    pub number: u32,
    /// The address of desk 1, of desk 2 and so on, where it is known: one to five.
    pub addresses: &'a [Option<SocketAddr>],
    /// The hall's key, if it has one.
    pub key: Option<[u8; 32]>,
}

/// The desks of a hall that are asked how they are, and a connection to each of them.
#[derive(Drop)]
pub struct AskedDesks<'a, R: Net + RandomSource> {
    pub desks: HallDesks,
    /// In the order of the desks.
    pub streams: Vec<AskedStream<'a, R>>,
}

/// An address as it is printed.
fn printed(alloc: Global, address: SocketAddr) -> Result<String, AllocError> {
    format!(in alloc; "{address}")
}

/// How many desks a hall with these addresses has, of which there are one to five.
pub fn count_desks(addresses: &[Option<SocketAddr>]) -> u8
    ensures desk { IsDesk result }
    ensures count { IsDesk (length addresses.now) → result ≡ length addresses.now }
{
    match addresses.len() {
        0 | 1 => 1,
        2 => 2,
        3 => 3,
        4 => 4,
        _ => 5,
    }
}

/// A connection to one desk of this hall after the other, under the hall's key, if it has one. Its
/// socket has this number. Nothing is connected yet.
fn lent<'a, R: Net + RandomSource + Clock + Drop>(
    rt: &'a R,
    alloc: Global,
    registry: &Registry,
    number: u8,
    hall: Hall<'_>,
) -> io::Result<&'a mut DeskStream<'a, R>>
    ensures { IfOk result (λ s. IsFresh (keys_of hall.entry.key None) s.now.wire) }
{
    let addresses = Vec::from_slice(alloc, hall.addresses)?;
    let connector = TcpConnector::new(rt, registry.try_clone()?);
    let wire = SocketConnection::new(connector, alloc, number, hall.key);
    let kept = Box::new(alloc, DialogueStream { wire, addresses })?;
    Ok(Box::leak(kept))
}

impl<'a, R: Net + RandomSource + Clock + Drop> AskedDesks<'a, R> {
    /// Adds the desk with this number, and a connection to it.
    fn add(
        &mut self,
        rt: &'a R,
        alloc: Global,
        registry: &Registry,
        desk: u8,
        hall: Hall<'_>,
    ) -> io::Result<()>
        requires { IsDesk desk }
    {
        let Some(address) = address_of(hall.addresses, desk) else {
            return Ok(());
        };
        let number = FIRST_SOCKET.saturating_add(desk);
        let stream = lent(rt, alloc, registry, number, hall)?;
        self.desks.add(desk, printed(alloc, address)?)?;
        self.streams.push(AskedStream::new(desk, stream))?;
        Ok(())
    }
}

/// The desks of a hall whose addresses are known, at most five, over the poll of these browsers.
/// Nothing is connected yet. The socket of desk 1 is the program's own with the number 11, and so
/// on.
pub fn asked_desks<'a, R: Net + RandomSource + Clock + Drop>(
    rt: &'a R,
    alloc: Global,
    browsers: &TcpBrowsers<'a, R>,
    hall: Hall<'_>,
) -> io::Result<AskedDesks<'a, R>> {
    let registry = browsers.sockets().registry()?;
    let mut asked = AskedDesks {
        desks: HallDesks::new(alloc, hall.number),
        streams: Vec::new(alloc),
    };
    for desk in 1..=5_u8 {
        asked.add(rt, alloc, &registry, desk, hall)?;
    }
    Ok(asked)
}

/// A connection to one desk of a hall after the other, over the poll of these browsers: the socket
/// is the program's own with this number, 0 to 9. Nothing is connected yet.
pub fn lent_stream<'a, R: Net + RandomSource + Clock + Drop>(
    rt: &'a R,
    alloc: Global,
    browsers: &TcpBrowsers<'a, R>,
    number: u8,
    hall: Hall<'_>,
) -> io::Result<&'a mut DeskStream<'a, R>>
    ensures { IfOk result (λ s. IsFresh (keys_of hall.entry.key None) s.now.wire) }
{
    let registry = browsers.sockets().registry()?;
    lent(rt, alloc, &registry, number, hall)
}
