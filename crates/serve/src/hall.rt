//! The sockets of a desk that serves: its clients, and the links to the desks of its hall.

ghost use Rattle.std.specs.Prelude.{IfOk, IfErr, IfSome, map};
ghost use Rattle.mio_sockets.specs.{Calling.AreUnder, Wiring.lines_of};
ghost use Rattle.desk_sockets.specs.Keying.{keys_of};
ghost use Rattle.serve.specs.Addresses.{AreFoundFor, IsFoundFor, IsNoAddress, LeadTo};
ghost use Rattle.serve.specs.{Keys.hall_key, Keys.old_key, Printing.IsOfListener};

use crate::doors::{hall_key, old_key};
use crate::fault::ServeFault;
use crate::twins::twins_in;
use desk_sockets::CallingDesk;
use hall_file::service::Service;
use mio_sockets::{DeskLinks, SocketLinks, neighbours};
use multiplex::PeerLinks;
use polled::sockets::PeerSockets;
use prompt_lines::PromptLines;
use sealed::Access;
use std::alloc::{AllocError, Global};
use std::io::{ErrorKind, Write};
use std::net::{Net, SocketAddr, ToSocketAddrs};
use std::time::Duration;
use std::{io, thread};

/// The first address of a text, an IP address or a host's name and a port.
fn address_of<R: Net>(net: &R, text: &str) -> Option<SocketAddr>
    ensures { IsFoundFor text.now result }
{
    let Ok(mut found) = text.to_socket_addrs(net) else {
        return None;
    };
    found.next()
}

/// The first addresses of these texts, in their order.
fn addresses_of<R: Net>(
    net: &R,
    alloc: Global,
    texts: &[&str],
) -> Result<Vec<Option<SocketAddr>>, AllocError>
    ensures { IfOk result (λ found. AreFoundFor (map (λ t. t.now) texts.now) found.items) }
{
    let mut found = Vec::with_capacity(alloc, texts.len())?;
    for text in texts {
        found.push(address_of(net, text))?;
    }
    Ok(found)
}

/// The number of the first desk, from 1, of whose text no address is found, among the first 255.
pub fn unknown_in<R: Net>(net: &R, texts: &[&str]) -> Option<u8>
    ensures { IfSome result (IsNoAddress (map (λ t. t.now) texts.now)) }
{
    for desk in 1..=255u8 {
        let place = usize::from(desk) - 1;
        if place >= texts.len() {
            return None;
        }
        if address_of(net, texts[place]).is_none() {
            return Some(desk);
        }
    }
    None
}

/// Why the desk's address can't be had.
fn no_listener(error: &io::Error) -> ServeFault
    ensures { IsOfListener result }
{
    if error.kind() == ErrorKind::OutOfMemory {
        return ServeFault::NoMemory;
    }
    ServeFault::CannotListen
}

/// The most connections of clients that are open at once.
const MOST_OPEN: usize = 512;

/// Listens at the desk's address, at the desk's start of this number.
pub fn listen<'r>(
    rt: &'r HostRuntime,
    service: Service<'_>,
    start: u64,
) -> Result<PeerSockets<'r, HostRuntime>, ServeFault>
    ensures { IfErr result IsOfListener }
{
    let place = usize::from(service.options.desk).saturating_sub(1);
    let found = match service.addresses.get(place) {
        Some(text) => address_of(rt, text),
        None => None,
    };
    let Some(address) = found else {
        return Err(ServeFault::CannotListen);
    };
    let lines = PromptLines::new(rt.stderr(), rt.alloc());
    match PeerSockets::listen(rt, rt.alloc(), address, MOST_OPEN, start, Some(lines)) {
        Ok(clients) => Ok(clients),
        Err(error) => Err(no_listener(&error)),
    }
}

/// Says which two desks have one address.
fn tell_twins<W: Write>(lines: &mut W, texts: &[&str]) -> io::Result<()> {
    let Some((first, second)) = twins_in(texts) else {
        return Ok(());
    };
    let Some(text) = texts.get(first) else {
        return Ok(());
    };
    let (one, other) = (first.saturating_add(1), second.saturating_add(1));
    writeln!(lines, "desks {one} and {other} have one address: {text}")
}

/// Says of which desks no address was found.
fn tell_missing<W: Write>(
    lines: &mut W,
    texts: &[&str],
    addresses: &[Option<SocketAddr>],
) -> io::Result<()> {
    for (place, (text, address)) in texts.iter().zip(addresses).enumerate() {
        if address.is_none() {
            let desk = place + 1;
            writeln!(lines, "desk {desk} at {text}: no such address")?;
        }
    }
    lines.flush()
}

/// How often it is looked at the end whether something is still to be sent to the other desks.
const LAST_LOOKS: u32 = 100;

/// How many milliseconds lie between two of these looks.
const BETWEEN_LOOKS: u64 = 10;

/// Sends what waits for the other desks, once a desk has served, for a second at most. Of a desk
/// that is down nothing is sent: what it pushed last may not be settled.
pub fn send_rest(
    rt: &HostRuntime,
    links: &mut SocketLinks<'_, HostRuntime, PromptLines>,
    is_down: bool,
) {
    if is_down {
        return;
    }
    let mut now = links.time();
    for _look in 0..LAST_LOOKS {
        now = now.saturating_add(BETWEEN_LOOKS);
        links.keep(now);
        if !links.is_busy(now) {
            return;
        }
        thread::sleep(rt, Duration::from_millis(BETWEEN_LOOKS));
    }
}

/// The links to the desks of the hall, at the desk's start of this number, whose sockets the poll
/// of the clients watches. Where the desk has keys, they speak under the hall's, or the one that
/// was its own. Where lines about desks are wanted, it says which two have one address, and of
/// which no address was found.
pub fn links_to<'r>(
    rt: &'r HostRuntime,
    service: Service<'_>,
    doors: Access,
    clients: &PeerSockets<'r, HostRuntime>,
    start: u64,
) -> Result<SocketLinks<'r, HostRuntime, PromptLines>, ServeFault>
    ensures links { IfOk result
        (λ links. LeadTo (map (λ t. t.now) service.entry.addresses.now) (lines_of links)) }
    ensures keys { IfOk result
        (λ links. AreUnder (keys_of (hall_key doors) (old_key doors)) links) }
    ensures err { IfErr result IsOfListener }
{
    let registry = match clients.registry() {
        Ok(registry) => registry,
        Err(error) => return Err(no_listener(&error)),
    };
    let Ok(addresses) = addresses_of(rt, rt.alloc(), service.addresses) else {
        return Err(ServeFault::NoMemory);
    };
    let mut lines = PromptLines::new(rt.stderr(), rt.alloc());
    if !service.options.quiet {
        let _ = tell_twins(&mut lines, service.addresses);
        let _ = tell_missing(&mut lines, service.addresses, &addresses);
    }
    let caller = CallingDesk {
        hall: service.hall,
        start,
        key: hall_key(doors),
        former: old_key(doors),
    };
    match neighbours(rt, rt.alloc(), &registry, caller, &addresses) {
        Ok(desks) => Ok(DeskLinks::new(rt.alloc(), desks, lines, service.options.quiet)),
        Err(error) => Err(no_listener(&error)),
    }
}
