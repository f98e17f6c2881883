//! The peers' sockets: those of open connections, and those of connections that are ending.

ghost use Rattle.std.specs.Prelude.{◌≡◌, ◌≤◌, [], false, true, IfOk};
ghost use Rattle.indexmap.specs.IndexMap.{index_map_len};

use crate::sockets::outcomes::is_waiting;
use crate::sockets::tokens::peer_token;
use indexmap::IndexMap;
use mio::net::TcpStream;
use mio::{Interest, Registry};
use std::alloc::{AllocError, Global};
use std::io::Read;
use std::net::Shutdown;

/// The most connections that are ending at once.
pub const MOST_ENDING: usize = 64;

/// For how long a connection that is ending is kept at most, in milliseconds.
const ENDING: u64 = 2000;

/// How often a connection that is ending is read at once.
const MOST_READS: u32 = 16;

/// A connection that is ending: the peer knows that no more is sent to it. What it still sends is
/// read and dropped, since bytes that were not read would reset the connection, and what it was
/// sent would be lost.
#[derive(Drop)]
struct EndingStream {
    stream: TcpStream,
    /// The time from which on it is ending, in milliseconds.
    since: u64,
}

/// Reads what comes, and drops it. False: the peer has ended the connection too, or it failed.
fn goes_on(mut stream: &TcpStream) -> bool {
    let mut piece = [0; 4096];
    for _read in 0..MOST_READS {
        match stream.read(&mut piece) {
            Ok(0) => return false,
            Ok(_) => {}
            Err(error) => return is_waiting(&error),
        }
    }
    true
}

/// The sockets of peers, each by the peer's number: at most this many of open connections, and 64
/// of connections that are ending.
#[derive(Drop)]
pub struct Streams {
    pub staying: IndexMap<u64, TcpStream>,
    ending: IndexMap<u64, EndingStream>,
    /// The most connections that are open at once.
    pub most: usize,
    ghost few: { index_map_len staying ≤ most },
    ghost few_end: { index_map_len ending ≤ 64 },
}

impl Streams {
    ghost use Rattle.polled.specs.sockets.Streams.{OthersStay, SameOpen, has_late, is_empty};
    ghost use Rattle.polled.specs.sockets.Streams.{is_full, is_open, some_end, without_late};

    pub fn new(alloc: Global, most: usize) -> Result<Streams, AllocError>
        ensures most { IfOk result (λ s. s.most ≡ most) }
        ensures none { IfOk result (λ s. is_empty s ≡ true) }
        ensures none_open { IfOk result (λ s. s.staying.entries ≡ []) }
        ensures none_end { IfOk result (λ s. some_end s ≡ false) }
    {
        Ok(Streams {
            staying: IndexMap::with_capacity(alloc, most)?,
            ending: IndexMap::with_capacity(alloc, MOST_ENDING)?,
            most,
        })
    }

    /// Whether as many connections are open as may be.
    pub fn is_full(&self) -> bool
        ensures { result ≡ is_full self.now }
    {
        self.staying.len() >= self.most
    }

    /// Whether no connection is open.
    pub fn is_empty(&self) -> bool
        ensures { result ≡ is_empty self.now }
    {
        self.staying.is_empty()
    }

    /// Whether the connection of the peer with this number is open.
    pub fn is_open(&self, number: u64) -> bool
        ensures { result ≡ is_open self.now number }
    {
        self.staying.contains_key(&number)
    }

    /// Lets a peer in. False: as many are in as may be, the system doesn't tell when it is ready,
    /// or memory was refused.
    pub fn enter(&mut self, registry: &Registry, number: u64, stream: TcpStream) -> bool
        ensures full { is_full self.old ≡ true → result ≡ false }
        ensures entered { result ≡ true → is_open self.new number ≡ true }
        ensures refused { result ≡ false → is_open self.new number ≡ is_open self.old number }
        ensures others { OthersStay number self.old self.new }
        ensures most { self.new.most ≡ self.old.most }
    {
        if self.staying.len() >= self.most {
            return false;
        }
        let Some(token) = peer_token(number) else {
            return false;
        };
        let mut stream = stream;
        // It only makes answers slower where it is refused.
        let _ = stream.set_nodelay(true);
        let told = registry.register(&mut stream, token, Interest::READABLE);
        told.is_ok() && self.staying.insert(number, stream).is_ok()
    }

    /// Asks the system to tell when a peer can take bytes, or else when it can be read from.
    pub fn watch(&mut self, registry: &Registry, number: u64, writes: bool) -> bool
        ensures closed { is_open self.old number ≡ false → result ≡ false }
        ensures same { SameOpen self.old self.new }
        ensures most { self.new.most ≡ self.old.most }
    {
        let Some(token) = peer_token(number) else {
            return false;
        };
        let interest = if writes {
            Interest::WRITABLE
        } else {
            Interest::READABLE
        };
        match self.staying.get_mut(&number) {
            Some(stream) => registry.reregister(stream, token, interest).is_ok(),
            None => false,
        }
    }

    /// Ends the connection of a peer: it is said to it that no more is sent, and its socket is kept
    /// until the peer ends the connection too, but not where sockets are scarce.
    pub fn end(&mut self, registry: &Registry, number: u64, now: u64, scarce: bool)
        ensures ended { is_open self.new number ≡ false }
        ensures others { OthersStay number self.old self.new }
        ensures most { self.new.most ≡ self.old.most }
    {
        let Some(stream) = self.staying.swap_remove(&number) else {
            return;
        };
        let shut = stream.shutdown(Shutdown::Write);
        if shut.is_ok() && goes_on(&stream) && !scarce {
            self.keep_ending(registry, number, stream, now);
        }
    }

    /// Keeps a socket whose connection is ending. Where as many are kept as may be, the one that is
    /// ending for the longest time is closed for it.
    fn keep_ending(&mut self, registry: &Registry, number: u64, stream: TcpStream, now: u64)
        ensures staying { self.new.staying ≡ self.old.staying }
        ensures most { self.new.most ≡ self.old.most }
    {
        let Some(token) = peer_token(number) else {
            return;
        };
        let mut stream = stream;
        let told = registry.reregister(&mut stream, token, Interest::READABLE);
        if told.is_err() {
            return;
        }
        if self.ending.len() >= MOST_ENDING {
            let _closed = self.ending.shift_remove_index(0);
        }
        let ending = EndingStream { stream, since: now };
        let _kept = self.ending.insert(number, ending);
    }

    /// Reads what a peer still sends whose connection is ending, and closes the connection where
    /// the peer has ended it too.
    pub fn hear_ending(&mut self, registry: &Registry, number: u64)
        ensures staying { self.new.staying ≡ self.old.staying }
        ensures most { self.new.most ≡ self.old.most }
    {
        let Some(token) = peer_token(number) else {
            return;
        };
        let stays = match self.ending.get_mut(&number) {
            Some(ending) => {
                goes_on(&ending.stream)
                    && registry
                        .reregister(&mut ending.stream, token, Interest::READABLE)
                        .is_ok()
            }
            None => return,
        };
        if !stays {
            let _closed = self.ending.shift_remove(&number);
        }
    }

    /// Whether the connection that is ending for the longest time is so for longer than that is
    /// waited for.
    fn has_late(&self, now: u64) -> bool
        ensures { result ≡ has_late now self.now.ending.entries }
    {
        match self.ending.get_index(0) {
            Some((_, ending)) => now.saturating_sub(ending.since) > ENDING,
            None => false,
        }
    }

    /// Closes the connections that are ending for longer than two seconds.
    pub fn close_late(&mut self, now: u64)
        ensures staying { self.new.staying ≡ self.old.staying }
        ensures ending { self.new.ending.entries ≡ without_late now self.old.ending.entries }
        ensures most { self.new.most ≡ self.old.most }
    {
        while self.has_late(now) {
            let _closed = self.ending.shift_remove_index(0);
        }
    }

    /// Closes all connections that are ending, and says whether there were some.
    pub fn close_ending(&mut self) -> bool
        ensures some { result ≡ some_end self.old }
        ensures none { some_end self.new ≡ false }
        ensures staying { self.new.staying ≡ self.old.staying }
        ensures most { self.new.most ≡ self.old.most }
    {
        let some = !self.ending.is_empty();
        self.ending.clear();
        some
    }
}
