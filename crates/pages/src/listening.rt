//! The browsers that come to an address. A crate that drops them has to prove for dozens of types
//! how each is dropped. So nobody does: they are lent for as long as the program runs.

ghost use Rattle.std.specs.Prelude.{◌≡◌, [], IfOk};
ghost use Rattle.pages.specs.Browsers.{terms_of, turns_of};

use crate::browsers::Browsers;
use crate::table::BrowserLimits;
use polled::sockets::PeerSockets;
use std::alloc::Global;
use std::hash::RandomState;
use std::io;
use std::io::Write;
use std::net::{Net, SocketAddr};
use std::random::RandomSource;
use std::time::Clock;

/// The browsers of a service over TCP.
pub type TcpBrowsers<'a, R> = Browsers<PeerSockets<'a, R>>;

/// Listens at this address. None of the browsers has come yet. They are never dropped.
pub fn browsers_at<'a, R: Net + Clock + RandomSource + Drop>(
    runtime: &'a R,
    alloc: Global,
    address: SocketAddr,
    terms: BrowserLimits,
) -> io::Result<&'a mut TcpBrowsers<'a, R>>
    ensures terms { IfOk result (λ b. terms_of b.now ≡ terms) }
    ensures turns { IfOk result (λ b. turns_of b.now ≡ []) }
{
    let sockets = PeerSockets::listen(runtime, alloc, address, terms.most, 0, None)?;
    let keys = RandomState::new(runtime)?;
    let browsers = Browsers::new(alloc, keys, terms, sockets)?;
    let kept = Box::new(alloc, browsers)?;
    Ok(Box::leak(kept))
}

/// Says where the program of this name listens, on a line as `board at 127.0.0.1:8080`.
pub fn say_where<W: Write>(address: SocketAddr, program: &str, writer: &mut W) -> io::Result<()> {
    writeln!(writer, "{program} at {address}")?;
    writer.flush()
}
