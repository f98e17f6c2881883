//! The random bytes of a connection, and the numbers that make them others each time.
//!
//! A machine that was copied may draw the same bytes again. What is sealed under them once must not
//! fit again, so the number of the desk's start and that of the connection are added to what was
//! drawn.

ghost use Rattle.std.specs.Prelude.{◌≡◌};
ghost use Rattle.polled.specs.sockets.Mixing.{KeepsDrawn, TellsApart, added, mixed};

use std::io;
use std::random::RandomSource;

/// Eight bytes, as a number of which the first is the highest, and another number added to it; what
/// is above 64 bits is dropped.
fn added(bytes: [u8; 8], number: u64) -> [u8; 8]
    ensures { result ≡ added bytes number }
{
    u64::from_be_bytes(bytes).wrapping_add(number).to_be_bytes()
}

/// The random bytes of a connection: the number of the desk's start is added to the first eight
/// that were drawn, and to the other eight how many connections were begun before it since then.
pub fn mixed(first: [u8; 8], second: [u8; 8], start: u64, count: u64) -> [u8; 16]
    ensures { result ≡ mixed first second start count }
{
    let mut bytes = [0; 16];
    bytes[..8].copy_from_slice(&added(first, start));
    bytes[8..].copy_from_slice(&added(second, count));
    bytes
}

/// The random bytes of a connection of a desk's start, before which this many were begun: 16 that
/// the system draws, mixed with both numbers.
pub fn drawn<R: RandomSource>(system: &R, start: u64, count: u64) -> io::Result<[u8; 16]> {
    let mut first = [0; 8];
    let mut second = [0; 8];
    system.fill_bytes(&mut first)?;
    system.fill_bytes(&mut second)?;
    Ok(mixed(first, second, start, count))
}

/// Where the same bytes are drawn again, at another start or for another connection, those of the
/// connection are others: a law.
pub fn mixed_apart()
    ensures { TellsApart }
{}

/// At one start, and for one connection, other bytes that are drawn are other bytes of the
/// connection, so nothing of what is drawn is lost: a law.
pub fn mixed_keeps()
    ensures { KeepsDrawn }
{}
