//! A connection to a desk, with a key or without one.

ghost use Rattle.std.specs.Prelude.{◌≡◌, ◌≢◌, ◌≤◌, [], is_some, length, true, IfOk, Some, IsFalse};
ghost use Rattle.std.specs.Prelude.{IsTrue};
ghost use Rattle.sealed.specs.ends.ClientStreams.{own_key};
ghost use Rattle.desk_sockets.specs.Answering.{Hands, Hears, Says, SaysOrNot};
ghost use Rattle.desk_sockets.specs.Troubles.{fits};
ghost use Rattle.desk_sockets.specs.declared.desk_connection.ConnectionTrouble.TheVariants as trouble_is;

use crate::asking::{Answering, AskedPeer, question};
use crate::desk_connection::{ConnectionOutcome, ConnectionTrouble};
use polled::sockets::{CallerSocket, is_waiting};
use sealed::ends::{CallTrouble, ClientStream};
use std::alloc::Global;
use std::io;
use std::io::ErrorKind;

/// How often a connection is read, or written to, at once: more often than an answer needs, which
/// has 300,004 bytes at most, and the tags beside them.
const MOST_CALLS: u32 = 128;

/// A connection to a desk, and what goes over it.
///
/// Of what is to be said at once the last byte counts as taken only once the connection has taken
/// all that is sent of it. So the code that says it knows that a part of it was taken, and that it
/// isn't done.
#[derive(Drop)]
pub(crate) struct KeyedStream<S> {
    pub(crate) socket: S,
    pub(crate) call: ClientStream,
    /// Whether a byte was taken that doesn't count yet.
    owes: bool,
    /// Whether the question was given that tells who answers.
    asked: bool,
}

/// What went wrong, as the system says it.
pub(crate) fn of_system(kind: ErrorKind) -> ConnectionTrouble
    ensures { result ≡ trouble_is.System kind }
{
    ConnectionTrouble::System { kind }
}

/// What a connection came to at its front. Where the desk has ended it without a word, though it
/// was to be asked, it has another key, or none.
fn begun_by(
    outcome: ConnectionOutcome,
    told: Option<CallTrouble>,
    asks: bool,
) -> Result<(), ConnectionTrouble> {
    match (outcome, told) {
        (ConnectionOutcome::Nothing, _) => Ok(()),
        (ConnectionOutcome::Broke, Some(trouble)) => Err(ConnectionTrouble::Key { trouble }),
        (ConnectionOutcome::Ended, Some(trouble)) if asks => {
            Err(ConnectionTrouble::Key { trouble })
        }
        _ => Err(of_system(ErrorKind::ConnectionReset)),
    }
}

impl<S: CallerSocket> KeyedStream<S> {
    /// A connection that was begun.
    pub(crate) fn new(socket: S, call: ClientStream) -> KeyedStream<S>
        ensures { result.call ≡ call }
    {
        KeyedStream {
            socket,
            call,
            owes: false,
            asked: false,
        }
    }

    /// Writes what is to be sent, and says whether all of it was taken. No call waits.
    pub(crate) fn send(&mut self) -> io::Result<bool>
        ensures key { own_key self.new.call ≡ own_key self.old.call }
        ensures sent { self.new.call ≡ record self.old.call { output = self.new.call.output } }
    {
        for _write in 0..MOST_CALLS {
            let output = self.call.output();
            if output.is_empty() {
                return Ok(true);
            }
            match self.socket.write(output) {
                Ok(0) => return Ok(false),
                Ok(count) => self.call.sent(count),
                Err(error) if is_waiting(&error) => return Ok(false),
                Err(error) => return Err(error),
            }
        }
        Ok(self.call.output().is_empty())
    }

    /// Writes as much of the bytes as the connection takes, and says how many count as taken. No
    /// call waits.
    pub(crate) fn write(&mut self, bytes: &[u8]) -> io::Result<usize>
        requires { bytes.now ≢ [] }
        ensures count { IfOk result (λ count. count ≤ length bytes.now) }
        ensures key { own_key self.new.call ≡ own_key self.old.call }
    {
        if !self.send()? {
            return Ok(0);
        }
        if self.owes {
            self.owes = false;
            return Ok(1);
        }
        let Ok(count) = self.call.give(bytes) else {
            return Err(io::Error::from(ErrorKind::OutOfMemory));
        };
        if count == 0 || self.send()? {
            return Ok(count);
        }
        self.owes = true;
        Ok(count - 1)
    }

    /// Gives the question that tells who answers, once it may be given.
    pub(crate) fn ask(&mut self, alloc: Global, asking: AskedPeer) -> Result<(), ConnectionTrouble>
        ensures { own_key self.new.call ≡ own_key self.old.call }
    {
        if self.asked || !self.call.is_open() {
            return Ok(());
        }
        let Some(bytes) = question(alloc, asking.hall, asking.desk) else {
            return Ok(());
        };
        let Ok(count) = self.call.give(&bytes) else {
            return Err(of_system(ErrorKind::OutOfMemory));
        };
        self.asked = count > 0;
        match self.send() {
            Ok(_) => Ok(()),
            Err(error) => Err(of_system(error.kind())),
        }
    }

    /// Takes a piece of what came, and hands on what the desk said with it, which tells who
    /// answers. False: it doesn't fit under the key, or memory was refused.
    fn take(&mut self, piece: &[u8], answering: &mut Answering, handed: &mut Vec<u8>) -> bool
        ensures key { own_key self.new.call ≡ own_key self.old.call }
        ensures socket { self.new.socket ≡ self.old.socket }
        ensures says { IsTrue result → Says piece.now self.old.call self.new.call
            handed.old.items handed.new.items answering.old answering.new }
        ensures ends { IsFalse result → SaysOrNot piece.now self.old.call self.new.call
            handed.old.items handed.new.items answering.old answering.new }
    {
        let Ok(more) = self.call.receive(piece) else {
            return false;
        };
        if handed.extend_from_slice(&more).is_err() {
            return false;
        }
        answering.hear(&more);
        self.call.trouble().is_none()
    }

    /// Reads what comes from a desk, and hands on what it said. No call waits.
    fn read(&mut self, answering: &mut Answering, handed: &mut Vec<u8>) -> ConnectionOutcome
        ensures key { own_key self.new.call ≡ own_key self.old.call }
        ensures hands { Hands S.remaining (Some self.old.call) handed.old.items handed.new.items
            answering.old answering.new }
    {
        let mut piece = [0; 4096];
        for _read in 0..MOST_CALLS {
            match self.socket.read(&mut piece) {
                Ok(0) => return ConnectionOutcome::Ended,
                Ok(count) => {
                    if !self.take(&piece[..count], answering, handed) {
                        return ConnectionOutcome::Broke;
                    }
                }
                Err(error) if is_waiting(&error) => return ConnectionOutcome::Nothing,
                // a desk that dies resets its connections: that tells nothing of the keys
                Err(_) => return ConnectionOutcome::Broke,
            }
        }
        ConnectionOutcome::Nothing
    }

    /// Reads what comes from a desk, and hands on what it said. With what became of the connection
    /// it says what is wrong with the keys, if they ended it.
    fn hear(
        &mut self,
        answering: &mut Answering,
        handed: &mut Vec<u8>,
    ) -> (ConnectionOutcome, Option<CallTrouble>)
        ensures key { own_key self.new.call ≡ own_key self.old.call }
        ensures fits { fits (is_some (own_key self.old.call)) result.1 ≡ true }
        ensures hands { Hands S.remaining (Some self.old.call) handed.old.items handed.new.items
            answering.old answering.new }
    {
        let outcome = self.read(answering, handed);
        match (self.call.trouble(), outcome) {
            (Some(trouble), _) => (ConnectionOutcome::Broke, Some(trouble)),
            (None, ConnectionOutcome::Ended) => (outcome, self.call.trouble_at_end()),
            (None, _) => (outcome, None),
        }
    }

    /// Reads what comes at the front of a connection, where it is doubted who answers. Nothing of
    /// it is handed on.
    fn listen(
        &mut self,
        alloc: Global,
        answering: &mut Answering,
        doubted: bool,
    ) -> Result<(), ConnectionTrouble>
        ensures key { own_key self.new.call ≡ own_key self.old.call }
        ensures who { Hears S.remaining (Some self.old.call) answering.old answering.new }
    {
        if !doubted {
            return Ok(());
        }
        let asks = !answering.is_known();
        let mut handed = Vec::new(alloc);
        let (outcome, told) = self.hear(answering, &mut handed);
        begun_by(outcome, told, asks)
    }

    /// Whether something can be given, and it is known who answers where that is doubted.
    fn counts_as_open(&self, answering: &Answering, doubted: bool) -> bool {
        self.call.is_open() && (!doubted || answering.is_told())
    }

    /// Whether the connection is open, once it is there, or what went wrong. It is asked who
    /// answers, unless that is known. `doubted`: it is open only once that is known.
    pub(crate) fn is_open(
        &mut self,
        alloc: Global,
        answering: &mut Answering,
        doubted: bool,
    ) -> Result<bool, ConnectionTrouble>
        ensures key { own_key self.new.call ≡ own_key self.old.call }
        ensures who { Hears S.remaining (Some self.old.call) answering.old answering.new }
    {
        match self.socket.connected() {
            Ok(()) => {}
            Err(ErrorKind::NotConnected) => return Ok(false),
            Err(kind) => return Err(of_system(kind)),
        }
        let Some(asking) = answering.asked() else {
            return Ok(true);
        };
        if let Err(error) = self.send() {
            return Err(of_system(error.kind()));
        }
        self.listen(alloc, answering, doubted)?;
        if !answering.is_known() {
            self.ask(alloc, asking)?;
        }
        Ok(self.counts_as_open(answering, doubted))
    }

    /// Goes on with what is to be sent, and reads what comes.
    pub(crate) fn hear_on(
        &mut self,
        answering: &mut Answering,
        handed: &mut Vec<u8>,
    ) -> (ConnectionOutcome, Option<CallTrouble>)
        ensures key { own_key self.new.call ≡ own_key self.old.call }
        ensures fits { fits (is_some (own_key self.old.call)) result.1 ≡ true }
        ensures hands { Hands S.remaining (Some self.old.call) handed.old.items handed.new.items
            answering.old answering.new }
    {
        if self.send().is_err() {
            return (ConnectionOutcome::Broke, None);
        }
        self.hear(answering, handed)
    }
}
