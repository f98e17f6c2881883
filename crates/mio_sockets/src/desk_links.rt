//! The links to the desks of a hall.

ghost use Rattle.std.specs.Prelude.{◌≡◌, ◌++◌, IfOk, OnOk, position, take};
ghost use Rattle.std.specs.List.{list_any};
ghost use Rattle.desk_sockets.specs.{Keying.keys_of, Wires.address_of};
ghost use Rattle.mio_sockets.specs.{Keeping.AreKept, Calling.AreUnder};
ghost use Rattle.mio_sockets.specs.Waiting.{is_busy, sooner, soonest};
ghost use Rattle.mio_sockets.specs.Wiring.{PushesTo, has_number, lines_at, lines_from, lines_of};

use crate::neighbour::Neighbour;
use crate::tellings::{Subject, tell, tell_difference};
use desk_sockets::{CallingDesk, DeskConnection, SocketConnection, address_of};
use links::Notice;
use mio::Registry;
use multiplex::PeerLinks;
use polled::sockets::TcpConnector;
use serving::Peers;
use std::alloc::Global;
use std::io;
use std::io::Write;
use std::marker::Model;
use std::net::{Net, SocketAddr};
use std::random::RandomSource;
use wire::Difference;

/// The most desks, desk 1 to desk 5.
const MOST_DESKS: usize = 5;

/// The links to the desks of a hall over TCP.
pub type SocketLinks<'a, R, F> = DeskLinks<SocketConnection<TcpConnector<'a, R>>, F>;

/// A desk of the hall, and the connection to it over TCP.
pub type TcpNeighbour<'a, R> = Neighbour<SocketConnection<TcpConnector<'a, R>>>;

/// Where the lines about other desks go, and whether it is left out which desk can't be reached.
#[derive(Drop)]
struct NoticeLines<F> {
    writer: F,
    quiet: bool,
}

/// The links to the desks of a hall, each over a connection of some kind, and where the lines
/// go that say which desk can't be reached, and which differs. A contract sees each desk that has
/// an address, and the connection to it.
#[derive(Drop)]
pub struct DeskLinks<W, F> {
    alloc: Global,
    desks: Vec<Neighbour<W>>,
    lines: NoticeLines<F>,
    /// When the links were kept last, in milliseconds.
    kept_at: u64,
}

impl<W, F> Model for DeskLinks<W, F> {
    ghost use Rattle.std.specs.Prelude.{List};
    ghost use Rattle.mio_sockets.specs.Wiring.{NeighbourOf};

    ghost Value = { List (NeighbourOf W) };

    ghost view = { λ l. l.desks.items };
}

/// Adds the desk with this number, where its address is known, and the connection to it, which
/// isn't begun.
fn push_desk<'a, R: Net + RandomSource>(
    desks: &mut Vec<TcpNeighbour<'a, R>>,
    system: &'a R,
    alloc: Global,
    registry: &Registry,
    caller: CallingDesk,
    addresses: &[Option<SocketAddr>],
    desk: u8,
) -> io::Result<()>
    ensures lines { OnOk result (lines_of desks.new.items
        ≡ lines_of desks.old.items ++ lines_at desk (address_of addresses.now desk)) }
    ensures keys { OnOk result (AreUnder (keys_of caller.key caller.former) desks.old.items
        → AreUnder (keys_of caller.key caller.former) desks.new.items) }
{
    let Some(address) = address_of(addresses, desk) else {
        return Ok(());
    };
    let copy = Vec::from_slice(alloc, addresses)?;
    let connector = TcpConnector::new(system, registry.try_clone()?);
    let wire = SocketConnection::between(connector, alloc, caller, desk);
    desks.push(Neighbour::new(alloc, desk, address, copy, wire))?;
    Ok(())
}

/// The desks of a hall at these addresses, desk 1 at the first one, and so on, and the connections
/// of this desk to them over TCP, of which the poll of this registry tells, and which aren't begun.
/// Addresses after the fifth are left out.
pub fn neighbours<'a, R: Net + RandomSource>(
    system: &'a R,
    alloc: Global,
    registry: &Registry,
    caller: CallingDesk,
    addresses: &[Option<SocketAddr>],
) -> io::Result<Vec<TcpNeighbour<'a, R>>>
    ensures lines { IfOk result (λ desks. lines_of desks.items
        ≡ lines_from 1 (take 5 addresses.now)) }
    ensures keys { IfOk result (λ desks. AreUnder (keys_of caller.key caller.former) desks.items) }
{
    let mut desks = Vec::with_capacity(alloc, MOST_DESKS)?;
    for place in 0..addresses.len().min(MOST_DESKS) {
        let desk = (place + 1) as u8;
        push_desk(&mut desks, system, alloc, registry, caller, addresses, desk)?;
    }
    Ok(desks)
}

/// Writes the line about a desk that is due, if one is, and such lines are written at all. Where it
/// can't be written, it is left out.
fn tell_due<F: Write>(lines: &mut NoticeLines<F>, subject: Subject, due: Option<Notice>) {
    if lines.quiet {
        return;
    }
    if let Some(notice) = due {
        let _ = tell(&mut lines.writer, subject, notice);
    }
}

/// What a line about a desk says beside what became of it.
fn subject_of<W: DeskConnection>(desk: &Neighbour<W>) -> Subject
    ensures desk { result.desk ≡ desk.now.line.desk }
    ensures address { result.address ≡ desk.now.line.address }
{
    Subject {
        desk: desk.desk(),
        address: desk.address(),
        trouble: desk.trouble(),
    }
}

/// Keeps each link.
fn keep_each<W: DeskConnection, F: Write>(
    desks: &mut [Neighbour<W>],
    lines: &mut NoticeLines<F>,
    now: u64,
)
    ensures { AreKept W.wired now desks.old desks.new }
{
    for place in 0..desks.len() {
        let desk = &mut desks[place];
        let due = desk.keep(now);
        tell_due(lines, subject_of(desk), due);
    }
}

/// The place of the desk with this number.
fn place_of<W: DeskConnection>(desks: &[Neighbour<W>], desk: u8) -> Option<usize>
    ensures { result ≡ position (has_number desk) desks.now }
{
    desks.iter().position(|neighbour| neighbour.desk() == desk)
}

/// The shorter wait; None is for ever.
fn sooner(a: Option<u64>, b: Option<u64>) -> Option<u64>
    ensures { result ≡ sooner a b }
{
    match (a, b) {
        (Some(a), Some(b)) => Some(a.min(b)),
        (None, b) => b,
        (a, None) => a,
    }
}

/// The shortest wait of all.
fn soonest<W: DeskConnection>(desks: &[Neighbour<W>], now: u64) -> Option<u64>
    ensures { result ≡ soonest desks.now now }
{
    let mut wait = None;
    for place in 0..desks.len() {
        wait = sooner(wait, desks[place].wait(now));
    }
    wait
}

/// Whether something is still to be sent to one of these that is not known to be out of reach.
fn is_busy<W: DeskConnection>(desks: &[Neighbour<W>], now: u64) -> bool
    ensures { result ≡ list_any (is_busy now) desks.now }
{
    desks.iter().any(|desk| desk.is_busy(now))
}

impl<W: DeskConnection, F: Write> DeskLinks<W, F> {
    /// The links to these desks. Frames to another one are dropped. Where it is to be `quiet`,
    /// nothing is said of desks that can't be reached.
    pub fn new(alloc: Global, desks: Vec<Neighbour<W>>, writer: F, quiet: bool) -> DeskLinks<W, F>
    where
        W: Drop,
        F: Drop,
        ensures { result ≡ desks.items }
    {
        DeskLinks {
            alloc,
            desks,
            lines: NoticeLines { writer, quiet },
            kept_at: 0,
        }
    }

    /// When they were kept last, in milliseconds.
    pub fn time(&self) -> u64 {
        self.kept_at
    }

    /// Whether something is still to be sent to a desk that is not known to be out of reach.
    pub fn is_busy(&self, now: u64) -> bool
        ensures { result ≡ list_any (is_busy now) self.now }
    {
        is_busy(&self.desks, now)
    }
}

impl<W: DeskConnection, F: Write> Peers for DeskLinks<W, F> {
    ghost use Rattle.std.specs.Prelude.{None};

    // What a desk was handed over to its link is said by the clause `frame`.
    ghost handed = { λ _. None };

    /// Gives a frame to the link of its desk. It is written once the links are kept, with all
    /// others that wait there. Where it has no bytes, or memory is refused for it, it is dropped,
    /// which is counted.
    fn push(&mut self, to: u8, frame: &[u8])
        ensures frame { PushesTo to frame.now self.old self.new }
    {
        if let Some(place) = place_of(&self.desks, to) {
            self.desks[place].push(self.alloc, frame);
        }
    }
}

impl<W: DeskConnection, F: Write> PeerLinks for DeskLinks<W, F> {
    ghost use Rattle.std.specs.Prelude.{◌≡◌, None};
    ghost use Rattle.mio_sockets.specs.Waiting.{soonest};

    // At which moments they were kept isn't noted.
    ghost kept = { λ _. None };

    // When the link is to be kept that is to be kept soonest.
    ghost due = { λ links now left. left ≡ soonest links now };

    /// Drives each link: opens, writes and closes what is due, and tells the lines that are due.
    /// Connections that were closed before go on to end.
    fn keep(&mut self, now: u64)
        ensures { AreKept W.wired now self.old self.new }
    {
        self.kept_at = now;
        keep_each(&mut self.desks, &mut self.lines, now);
    }

    /// Writes that another desk differs. Where that can't be written, it is left out.
    fn differs(&mut self, difference: Difference)
        ensures { self.new ≡ self.old }
    {
        let _ = tell_difference(&mut self.lines.writer, difference);
    }

    fn wait(&self, now: u64) -> Option<u64> {
        soonest(&self.desks, now)
    }
}
