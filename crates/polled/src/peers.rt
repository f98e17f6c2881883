//! Many peers at once, over sockets that never make anybody wait.

ghost use Rattle.std.specs.Prelude.{◌≢◌, [], ◌∷◌, List, Option, length};
ghost use Rattle.polled.specs.Counts.{CountsGiven, CountsTaken};
ghost use Rattle.polled.specs.Happenings.{Happened, accepted, closed, given, ready, taken, watched};
ghost use Rattle.polled.specs.Requests.{Request, Waited, Accepting, Reading, Writing, Watching};
ghost use Rattle.polled.specs.{Requests.Closing, Telling.Tells};

use crate::{AcceptedPeer, ReadOutcome, Ready, WriteOutcome};

/// The sockets of peers, each by the number under which it was accepted. No call but `ready` waits.
pub trait Sockets {
    /// What came of them, in order, where that is known.
    ghost happened: { Self → Option (List Happened) };

    /// What was asked of them, in order, and what came of it, where that is known.
    ghost requests: { Self → Option (List Request) };

    /// Waits until something is ready, and names it. All that was ready at once is named one after
    /// the other, the peers in the order of their numbers, and then the round is over. Where
    /// nothing becomes ready, the round is over after `wait` milliseconds.
    fn ready(&mut self, wait: u64) -> Ready
        ensures told { Tells (happened self.old) (happened self.new) (ready result) }
        ensures requests { Tells (requests self.old) (requests self.new)
            (Waited wait result ∷ []) };

    /// Accepts the peer that waits. From now on it has this number, and is named when it can be
    /// read from.
    fn accept(&mut self, number: u64) -> AcceptedPeer
        ensures told { Tells (happened self.old) (happened self.new) (accepted number result) }
        ensures requests { Tells (requests self.old) (requests self.new)
            (Accepting number result ∷ []) };

    /// Reads once of a peer, without waiting.
    fn read(&mut self, number: u64, buffer: &mut [u8; 4096]) -> ReadOutcome
        ensures count { CountsGiven (length buffer.new) result }
        ensures told { Tells (happened self.old) (happened self.new)
            (given number result buffer.new) }
        ensures requests { Tells (requests self.old) (requests self.new)
            (Reading number result ∷ []) };

    /// Writes to a peer as much of the bytes as it takes without waiting.
    fn write(&mut self, number: u64, bytes: &[u8]) -> WriteOutcome
        requires { bytes.now ≢ [] }
        ensures count { CountsTaken (length bytes.now) result }
        ensures told { Tells (happened self.old) (happened self.new)
            (taken number result bytes.now) }
        ensures requests { Tells (requests self.old) (requests self.new)
            (Writing number (length bytes.now) result ∷ []) };

    /// Asks that the peer be named when it can take bytes (`writes`), or else when it can be read
    /// from. Each time that it was named this is to be asked anew. False: the system refuses.
    fn watch(&mut self, number: u64, writes: bool) -> bool
        ensures told { Tells (happened self.old) (happened self.new) (watched number result) }
        ensures requests { Tells (requests self.old) (requests self.new)
            (Watching number writes result ∷ []) };

    /// Ends a peer's connection. What it was sent reaches it, if it still reads.
    fn close(&mut self, number: u64)
        ensures told { Tells (happened self.old) (happened self.new) (closed number) }
        ensures requests { Tells (requests self.old) (requests self.new)
            (Closing number ∷ []) };
}
