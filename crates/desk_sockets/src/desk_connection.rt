//! The connection to a desk, as the code sees it that has something to say over it.

ghost use Rattle.std.specs.Prelude.{◌≡◌, ◌≢◌, [], ◌∷◌, List, Option, length};
ghost use Rattle.polled.specs.{Counts.CountsTaken, Telling.Tells};
ghost use Rattle.desk_sockets.specs.Wires.{Began, Closed, Listened, Looked, Wired, taken};

use polled::WriteOutcome;
use sealed::ends::CallTrouble;
use std::io::ErrorKind;
use std::net::SocketAddr;

/// What has become of a connection that was begun.
#[derive(Clone, Copy, PartialEq, Eq, Debug)]
pub enum Opening {
    /// It isn't open yet.
    Later,
    Open,
    /// It can't be opened.
    Failed,
}

/// What has become of a connection that was read.
#[derive(Clone, Copy, PartialEq, Eq, Debug)]
pub enum ConnectionOutcome {
    /// Nothing more: it may go on.
    Nothing,
    /// The desk has ended it.
    Ended,
    /// It failed, or what came doesn't fit under the key.
    Broke,
}

/// What came over a connection.
#[derive(Drop)]
pub struct Heard {
    /// What the desk said, as it said it.
    pub handed: Vec<u8>,
    /// What became of the connection after that.
    pub outcome: ConnectionOutcome,
}

/// What went wrong with a connection.
#[derive(Clone, Copy)]
pub enum ConnectionTrouble {
    /// What the system says.
    System { kind: ErrorKind },
    /// The keys of the two sides.
    Key { trouble: CallTrouble },
}

/// Connections to desks, one at a time. No call waits.
pub trait DeskConnection {
    /// What its keys are.
    ghost Keys: { Type 0 };

    ghost keys: { Self → Keys };

    /// What was asked of the connections, and came of that, in order, where that is known.
    ghost wired: { Self → Option (List Wired) };

    /// Begins a connection at an address, where there is none. False: it can't be opened.
    fn begin(&mut self, address: SocketAddr) -> bool
        ensures keys { keys self.new ≡ keys self.old }
        ensures told { Tells (wired self.old) (wired self.new) (Began address ∷ []) };

    /// What has become of the connection, which was begun.
    fn opening(&mut self) -> Opening
        ensures keys { keys self.new ≡ keys self.old }
        ensures told { Tells (wired self.old) (wired self.new) (Looked result ∷ []) };

    /// Writes as much of the bytes as the connection takes without waiting.
    fn write(&mut self, bytes: &[u8]) -> WriteOutcome
        requires { bytes.now ≢ [] }
        ensures count { CountsTaken (length bytes.now) result }
        ensures keys { keys self.new ≡ keys self.old }
        ensures told { Tells (wired self.old) (wired self.new) (taken result bytes.now) };

    /// Reads what comes on the connection without waiting.
    fn hear(&mut self) -> Heard
        ensures keys { keys self.new ≡ keys self.old }
        ensures told { Tells (wired self.old) (wired self.new) (Listened result.outcome ∷ []) };

    /// What went wrong last.
    fn trouble(&self) -> ConnectionTrouble;

    /// Whether another hall or desk has answered, since this was asked last.
    fn take_foreign(&mut self) -> bool
        ensures keys { keys self.new ≡ keys self.old }
        ensures told { Tells (wired self.old) (wired self.new) [] };

    /// Closes the connection, if there is one.
    fn close(&mut self)
        ensures keys { keys self.new ≡ keys self.old }
        ensures told { Tells (wired self.old) (wired self.new) (Closed ∷ []) };

    /// Goes on, at this moment, with connections that were closed, so that what was written on them
    /// comes to their desks.
    fn end_closed(&mut self, now: u64)
        ensures keys { keys self.new ≡ keys self.old }
        ensures told { Tells (wired self.old) (wired self.new) [] };
}
