//! Connections to desks that are ending.

ghost use Rattle.std.specs.{Prelude.◌≡◌, VecDeque.deque_capacity};
ghost use Rattle.desk_sockets.specs.Endings.{Ends, KeepsOn, stays, with_room};

use polled::sockets::{CallerSocket, is_waiting};
use std::alloc::Global;
use std::collections::VecDeque;

/// The most connections that are ending at once.
const MOST_ENDING: usize = 16;

/// For how long a connection that is ending is kept at most, in milliseconds.
const ENDING: u64 = 2000;

/// How often a connection is read at once.
const MOST_READS: u32 = 16;

/// Reads what comes, and drops it. False: the desk has ended the connection too, or it failed.
fn goes_on<S: CallerSocket>(socket: &mut S) -> bool {
    let mut piece = [0; 4096];
    for _read in 0..MOST_READS {
        match socket.read(&mut piece) {
            Ok(0) => return false,
            Ok(_) => {}
            Err(error) => return is_waiting(&error),
        }
    }
    true
}

/// A connection that is ending, as those of clients end: the desk knows that no more is sent to it.
/// What it still sends is read and dropped, since bytes that were not read would reset the
/// connection, and what the desk has not read yet would be lost.
#[derive(Drop)]
struct EndingConnection<S> {
    socket: S,
    /// The time from which on it is ending, in milliseconds.
    since: u64,
    /// Whether the desk has ended it too, or it failed.
    over: bool,
}

impl<S: CallerSocket> EndingConnection<S> {
    /// A connection that is ending from this time on.
    fn new(mut socket: S, since: u64) -> EndingConnection<S>
        ensures { result.since ≡ since }
    {
        let over = !socket.shut() || !goes_on(&mut socket);
        EndingConnection {
            socket,
            since,
            over,
        }
    }

    /// Reads what still comes at this time, and says whether the connection is kept.
    fn stays(&mut self, now: u64) -> bool
        ensures since { self.new.since ≡ self.old.since }
        ensures stays { result ≡ stays now self.new }
    {
        self.over = !goes_on(&mut self.socket);
        !self.over && now.saturating_sub(self.since) <= ENDING
    }
}

/// Where as many are kept as may be, closes the one that is ending for the longest time.
fn make_room<S: Drop>(kept: &mut VecDeque<EndingConnection<S>>)
    ensures room { kept.new.items ≡ with_room kept.old.items }
    ensures capacity { deque_capacity kept.new ≡ deque_capacity kept.old }
{
    if kept.len() < MOST_ENDING {
        return;
    }
    let _closed = kept.pop_front();
}

/// The connections to desks that are ending.
#[derive(Drop)]
pub(crate) struct Endings<S> {
    kept: VecDeque<EndingConnection<S>>,
    /// The time of the last look at them, in milliseconds.
    now: u64,
}

impl<S: CallerSocket + Drop> Endings<S> {
    /// None yet.
    pub(crate) fn new(alloc: Global) -> Endings<S> {
        Endings {
            kept: VecDeque::new(alloc),
            now: 0,
        }
    }

    /// Ends a connection. Where as many are kept as may be, the one that is ending for the longest
    /// time is closed for it.
    pub(crate) fn end(&mut self, socket: S)
        ensures now { self.new.now ≡ self.old.now }
        ensures kept { Ends self.old.now self.old.kept self.new.kept }
    {
        let ending = EndingConnection::new(socket, self.now);
        if ending.over {
            return;
        }
        make_room(&mut self.kept);
        let _kept = self.kept.push_back(ending);
    }

    /// Reads what still comes, at this moment, and closes the connections that the desk has ended
    /// too, and those that are ending for longer than two seconds.
    pub(crate) fn go_on(&mut self, now: u64)
        ensures now { self.new.now ≡ now }
        ensures kept { KeepsOn now self.old.kept.items self.new.kept.items }
    {
        self.now = now;
        self.kept.retain_mut(move |ending| ending.stays(now));
    }

    /// Closes all of them.
    pub(crate) fn close(&mut self) {
        self.kept.clear();
    }
}
