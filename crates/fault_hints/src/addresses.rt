//! An address, tried again.

ghost use Rattle.std.specs.Prelude.{IfErr, IfOk};
ghost use Rattle.hall_file.specs.Addresses.{IsAddress};
ghost use Rattle.fault_hints.specs.Looking.{IsMetAt, IsMissed, IsOfConnecting, IsOfListening};

use crate::findings::AddressFinding;
use crate::told::{of_connecting, of_listening};
use hall_file::is_address;
use std::net::{Net, SocketAddr, TcpListener, TcpStream, ToSocketAddrs};
use std::time::Duration;

/// How long it is waited for a connection at most, in seconds.
const MOST_SECONDS: u32 = 3;

/// The first address that a text stands for, or what was met in place of one.
fn address_of<R: Net>(net: &R, text: &str) -> Result<SocketAddr, AddressFinding>
    ensures ok { IfOk result (λ _. IsAddress text.now) }
    ensures err { IfErr result (λ what. IsMissed text.now what) }
{
    if !is_address(text) {
        return Err(AddressFinding::NotAddress);
    }
    let Ok(mut found) = text.to_socket_addrs(net) else {
        return Err(AddressFinding::UnknownHost);
    };
    match found.next() {
        Some(address) => Ok(address),
        None => Err(AddressFinding::UnknownHost),
    }
}

/// What is met at an address where a desk should listen. It is waited for as many seconds as a desk
/// is waited for, and three at most.
pub(crate) fn of_asking<R: Net>(net: &R, text: &str, patience: u32) -> Option<AddressFinding>
    ensures { IsMetAt text.now IsOfConnecting result }
{
    let address = match address_of(net, text) {
        Ok(address) => address,
        Err(found) => return Some(found),
    };
    let seconds = patience.min(MOST_SECONDS);
    let wait = Duration::from_secs(u64::from(seconds));
    match TcpStream::connect_timeout(net, &address, wait) {
        Ok(_) => Some(AddressFinding::ListensNow),
        Err(error) => of_connecting(error.kind()),
    }
}

/// What is met at an address where a desk of this machine is to listen.
pub(crate) fn of_serving<R: Net>(net: &R, text: &str) -> Option<AddressFinding>
    ensures { IsMetAt text.now IsOfListening result }
{
    let address = match address_of(net, text) {
        Ok(address) => address,
        Err(found) => return Some(found),
    };
    match TcpListener::bind(net, address) {
        Ok(_) => Some(AddressFinding::FreeNow),
        Err(error) => of_listening(error.kind()),
    }
}
