//! Connections to desks over TCP, or over whatever else begins them, one at a time.
//!
//! Desks answer each other nothing. So that it is seen who answers at an address, a desk writes a
//! question at the front of a connection, as a client's, until one was answered by the right desk,
//! and again once it could not be reached. The question changes nothing at the desk.
//!
//! Where it is asked who answers, a connection with a key counts as open once the desk's preface
//! came, and, where it isn't known who answers, the answer to the question. So a desk that has
//! another key is never reached.

ghost use Rattle.std.specs.Prelude.{◌≡◌, ◌≢◌, Bool, [], false, is_some, length, true, IfOk, None};
ghost use Rattle.std.specs.Prelude.{Some};
ghost use Rattle.polled.specs.Counts.{CountsTaken};
ghost use Rattle.sealed.specs.ends.ClientStreams.{own_key};
ghost use Rattle.desk_sockets.specs.Answering.{Hands, Hears, forgotten, heard, unknown};
ghost use Rattle.desk_sockets.specs.Connections.{IsFresh, IsWhoAt, Notes, who_at, who_begun};
ghost use Rattle.desk_sockets.specs.Keying.{IsKeyOf, keys_of, next_key, turned_at, turned_by};
ghost use Rattle.desk_sockets.specs.{Connections.who_in, Keying.turned_in, Said.IsSaid};
ghost use Rattle.desk_sockets.specs.Troubles.{confirmed, fits};

use crate::asking::{Answering, AskedPeer};
use crate::desk_connection::{
    ConnectionOutcome, ConnectionTrouble, DeskConnection, Heard, Opening,
};
use crate::endings::Endings;
use crate::keyed_stream::{KeyedStream, of_system};
use polled::WriteOutcome;
use polled::sockets::{CallerSocket, Connector, drawn, taken_by};
use sealed::ends::{CallTrouble, ClientStream};
use std::alloc::Global;
use std::io;
use std::io::ErrorKind;
use std::marker::Model;
use std::net::SocketAddr;

/// A desk that begins connections to another one.
#[derive(Clone, Copy)]
pub struct CallingDesk {
    /// The number of its hall.
    pub hall: u32,
    /// The number of its start.
    pub start: u64,
    /// The key of its hall, if it has one.
    pub key: Option<[u8; 32]>,
    /// The key that the hall had before, while it is changed.
    pub former: Option<[u8; 32]>,
}

/// Connections to desks, one at a time, over TCP or whatever else begins them. All are under a key,
/// or under none where there is none; and while a hall's key is changed, under the one before where
/// the desk there has that one still. With a key they are sealed, and each has new random bytes,
/// mixed with the numbers of the desk's start, if it is one, and of the connection.
///
/// A contract sees the keys, whether the next connection is under the one before, what went wrong
/// last, what is wrong with the keys, what the last connection that ended said of that, who
/// answers, and the caller's end of the connection, where there is one.
#[derive(Drop)]
pub struct SocketConnection<C: Connector> {
    connector: C,
    alloc: Global,
    /// The number of its sockets.
    number: u8,
    key: Option<[u8; 32]>,
    former: Option<[u8; 32]>,
    /// Who is asked at the front of a connection who answers, if somebody is, and who has answered.
    answering: Answering,
    stream: Option<KeyedStream<C::Socket>>,
    /// Whether a connection is open only once it is known who answers: with a key, and once the
    /// desk asked for one.
    doubted: bool,
    /// What went wrong last, or would have if the connection were given up now.
    last: ConnectionTrouble,
    /// Whether the next connection is begun under the key before, where there is one: this changes
    /// each time that one went wrong by its key.
    turned: bool,
    trouble: Option<CallTrouble>,
    /// What the end of the last connection said, of which a second one has to say the same.
    suspected: Option<CallTrouble>,
    endings: Endings<C::Socket>,
    /// The number of the desk's start, or 0.
    start: u64,
    /// How many connections were begun since.
    begun: u64,
}

/// Whether the next connection is begun under the other key, once this went wrong.
fn turned_by(trouble: ConnectionTrouble, turned: bool) -> bool
    ensures { result ≡ turned_by trouble turned }
{
    match trouble {
        ConnectionTrouble::Key { .. } => !turned,
        ConnectionTrouble::System { .. } => turned,
    }
}

/// What is wrong with the keys once a connection ended: what it said, where the one before it said
/// the same, and else what is known. A desk that dies ends its connections as one without a key
/// does.
fn confirmed(
    known: Option<CallTrouble>,
    before: Option<CallTrouble>,
    told: Option<CallTrouble>,
) -> Option<CallTrouble>
    ensures is { result ≡ confirmed known before told }
    ensures fits { (keyed : Bool) → fits keyed known ≡ true → fits keyed told ≡ true
        → fits keyed result ≡ true }
{
    match (before, told) {
        (Some(CallTrouble::NoKey), Some(CallTrouble::NoKey))
        | (Some(CallTrouble::OtherKey), Some(CallTrouble::OtherKey))
        | (Some(CallTrouble::HasKey), Some(CallTrouble::HasKey)) => told,
        _ => known,
    }
}

impl<C: Connector> Model for SocketConnection<C> {
    ghost use Rattle.std.specs.Prelude.{◌≡◌, is_some, option_map, true, None};
    ghost use Rattle.std.specs.Option.{ForSome};
    ghost use Rattle.sealed.specs.ends.ClientStreams.{own_key};
    ghost use Rattle.desk_sockets.specs.Connections.{ConnectionOf, connection};
    ghost use Rattle.desk_sockets.specs.Keying.{IsKeyOf, keys_of};
    ghost use Rattle.desk_sockets.specs.Troubles.{confirmed, fits};

    ghost Value = { ConnectionOf };

    ghost view = { λ c. connection (keys_of c.key c.former) c.turned c.last c.trouble c.suspected
        c.answering (option_map (λ s. s.call) c.stream) };

    ghost invariant = { λ c. ForSome c.stream
        (λ s. IsKeyOf (keys_of c.key c.former) (own_key s.call))
        × (c.former ≡ None → fits (is_some c.key) c.trouble ≡ true) };
}

impl<C: Connector> SocketConnection<C> {
    /// No connection yet. Its socket has this number. Where somebody is asked who answers, it is
    /// this desk.
    fn made(
        connector: C,
        alloc: Global,
        number: u8,
        caller: CallingDesk,
        asking: Option<AskedPeer>,
    ) -> SocketConnection<C>
        ensures fresh { IsFresh (keys_of caller.key caller.former) result }
        ensures who { result.who ≡ unknown asking }
    {
        SocketConnection {
            connector,
            alloc,
            number,
            key: caller.key,
            former: caller.former,
            answering: Answering::new(asking),
            stream: None,
            doubted: asking.is_some() && caller.key.is_some(),
            last: of_system(ErrorKind::NotConnected),
            turned: false,
            trouble: None,
            suspected: None,
            endings: Endings::new(alloc),
            start: caller.start,
            begun: 0,
        }
    }

    /// No connection yet, of whoever has this key, that of a hall or its entry key. Its socket has
    /// this number. None: the hall has no key.
    pub fn new(
        connector: C,
        alloc: Global,
        number: u8,
        key: Option<[u8; 32]>,
    ) -> SocketConnection<C>
        ensures fresh { IsFresh (keys_of key None) result }
        ensures who { result.who ≡ unknown None }
    {
        let caller = CallingDesk {
            hall: 0,
            start: 0,
            key,
            former: None,
        };
        SocketConnection::made(connector, alloc, number, caller, None)
    }

    /// No connection yet, of a desk to the one with this number, which is that of the socket too.
    pub fn between(
        connector: C,
        alloc: Global,
        caller: CallingDesk,
        desk: u8,
    ) -> SocketConnection<C>
        ensures fresh { IsFresh (keys_of caller.key caller.former) result }
        ensures who { result.who ≡ unknown (Some (record { hall = caller.hall; desk = desk })) }
    {
        let asking = AskedPeer {
            hall: caller.hall,
            desk,
        };
        SocketConnection::made(connector, alloc, desk, caller, Some(asking))
    }

    /// What is wrong with the keys, as two connections in a row said. None once something came from
    /// a desk that fits. With a key it is that the desk has none, or another one; without a key,
    /// that the desk has one.
    pub fn key_trouble(&self) -> Option<CallTrouble>
        ensures trouble { result ≡ self.now.trouble }
        ensures fits { self.now.keys.former ≡ None
            → fits (is_some self.now.keys.key) result ≡ true }
    {
        self.trouble
    }

    /// The key under which the next connection is begun: at first the key itself, and the other one
    /// each time that a connection went wrong by its key, where there is another one.
    fn next_key(&self) -> Option<[u8; 32]>
        ensures next { result ≡ next_key self.now.turned self.now.keys }
        ensures either { IsKeyOf self.now.keys result }
    {
        match self.former {
            Some(former) if self.turned => Some(former),
            _ => self.key,
        }
    }

    /// A connection that is being opened, under the next key.
    fn connect(&self, address: SocketAddr) -> io::Result<KeyedStream<C::Socket>>
        ensures next { IfOk result
            (λ stream. own_key stream.call ≡ next_key self.now.turned self.now.keys) }
        ensures either { IfOk result (λ stream. IsKeyOf self.now.keys (own_key stream.call)) }
    {
        let key = self.next_key();
        let random = match key {
            Some(_) => drawn(&self.connector, self.start, self.begun)?,
            None => [0; 16],
        };
        let call = ClientStream::new(self.alloc, key, random)?;
        let socket = self.connector.connect(self.number, address)?;
        Ok(KeyedStream::new(socket, call))
    }

    /// Notes that it isn't known any more who answers, since this went wrong.
    fn fail(&mut self, trouble: ConnectionTrouble)
        ensures keys { self.new.keys ≡ self.old.keys }
        ensures turned { self.new.turned ≡ turned_by trouble self.old.turned }
        ensures last { self.new.last ≡ trouble }
        ensures trouble { self.new.trouble ≡ self.old.trouble }
        ensures suspected { self.new.suspected ≡ self.old.suspected }
        ensures who { self.new.who ≡ forgotten self.old.who }
    {
        self.answering.forget();
        self.turned = turned_by(trouble, self.turned);
        if let ConnectionTrouble::Key { .. } = trouble {
            self.doubted = true;
        }
        self.last = trouble;
    }

    /// Notes what the end of a connection says of the keys.
    fn note_end(&mut self, told: Option<CallTrouble>)
        requires { self.old.keys.former ≡ None → fits (is_some self.old.keys.key) told ≡ true }
        ensures keys { self.new.keys ≡ self.old.keys }
        ensures turned { self.new.turned ≡ self.old.turned }
        ensures last { self.new.last ≡ self.old.last }
        ensures notes { Notes told self.old self.new }
        ensures who { self.new.who ≡ self.old.who }
    {
        self.trouble = confirmed(self.trouble, self.suspected, told);
        self.suspected = told;
    }

    /// Notes that something came that fits, if something did: nothing is wrong with the keys.
    fn note_handed(&mut self, handed: &[u8])
        ensures keys { self.new.keys ≡ self.old.keys }
        ensures turned { self.new.turned ≡ self.old.turned }
        ensures last { self.new.last ≡ self.old.last }
        ensures who { self.new.who ≡ self.old.who }
    {
        if handed.is_empty() {
            return;
        }
        self.trouble = None;
        self.suspected = None;
    }

    /// Notes what became of a connection that was heard, with what is wrong with the keys, if they
    /// ended it.
    fn note_heard(&mut self, outcome: ConnectionOutcome, told: Option<CallTrouble>)
        requires { self.old.keys.former ≡ None → fits (is_some self.old.keys.key) told ≡ true }
        ensures keys { self.new.keys ≡ self.old.keys }
        ensures turned { self.new.turned ≡ turned_in outcome self.new.last self.old.turned }
        ensures who { self.new.who ≡ who_in outcome self.new.last self.old.who }
    {
        match (outcome, told) {
            (ConnectionOutcome::Nothing, _) => {}
            (ConnectionOutcome::Ended, _) => self.note_end(told),
            (ConnectionOutcome::Broke, Some(trouble)) => {
                self.note_end(told);
                self.fail(ConnectionTrouble::Key { trouble });
            }
            (ConnectionOutcome::Broke, None) => {
                self.note_end(None);
                self.last = of_system(ErrorKind::ConnectionReset);
            }
        }
    }

    /// Whether the connection is open, once it is there, or what went wrong.
    fn is_open(&mut self) -> Result<bool, ConnectionTrouble>
        ensures same { self.new
            ≡ record self.old { who = self.new.who; call = self.new.call } }
        ensures who { Hears C.Socket.remaining self.old.call self.old.who self.new.who }
    {
        let Some(mut stream) = self.stream.take() else {
            return Err(of_system(ErrorKind::NotFound));
        };
        let open = stream.is_open(self.alloc, &mut self.answering, self.doubted);
        self.stream = Some(stream);
        open
    }

    /// Notes what became of a connection that is being opened.
    fn note_open(&mut self, open: Result<bool, ConnectionTrouble>) -> Opening
        ensures keys { self.new.keys ≡ self.old.keys }
        ensures turned { self.new.turned ≡ turned_at result self.new.last self.old.turned }
        ensures who { self.new.who ≡ who_at result self.old.who }
    {
        match open {
            Ok(true) => {
                self.last = of_system(ErrorKind::ConnectionReset);
                Opening::Open
            }
            Ok(false) => Opening::Later,
            Err(trouble) => {
                self.suspected = None;
                self.fail(trouble);
                Opening::Failed
            }
        }
    }

    /// Reads what comes, and says with what became of the connection what is wrong with the keys,
    /// if they ended it.
    fn read(&mut self, handed: &mut Vec<u8>) -> (ConnectionOutcome, Option<CallTrouble>)
        ensures same { self.new
            ≡ record self.old { who = self.new.who; call = self.new.call } }
        ensures who { Hands C.Socket.remaining self.old.call handed.old.items handed.new.items
            self.old.who self.new.who }
        ensures fits { self.old.keys.former ≡ None
            → fits (is_some self.old.keys.key) result.1 ≡ true }
    {
        let Some(mut stream) = self.stream.take() else {
            return (ConnectionOutcome::Broke, None);
        };
        let came = stream.hear_on(&mut self.answering, handed);
        self.stream = Some(stream);
        came
    }

    /// Writes as much of the bytes as the connection takes, where there is one.
    fn give(&mut self, bytes: &[u8]) -> WriteOutcome
        requires { bytes.now ≢ [] }
        ensures count { CountsTaken (length bytes.now) result }
        ensures same { self.new ≡ record self.old { call = self.new.call } }
    {
        let Some(mut stream) = self.stream.take() else {
            return WriteOutcome::Broke;
        };
        let taken = taken_by(stream.write(bytes));
        self.stream = Some(stream);
        taken
    }
}

impl<C: Connector> DeskConnection for SocketConnection<C> {
    ghost use Rattle.std.specs.Prelude.{None};
    ghost use Rattle.desk_sockets.specs.Keying.{KeysOf};

    ghost Keys = { KeysOf };

    ghost keys = { λ c. c.keys };

    // The system doesn't tell what reaches the other side.
    ghost wired = { λ _. None };

    /// Where the connection can't be begun, those that are ending are closed, since sockets may be
    /// scarce.
    fn begin(&mut self, address: SocketAddr) -> bool
        ensures keys { self.new.keys ≡ self.old.keys }
        ensures turned { self.new.turned ≡ self.old.turned }
        ensures who { self.new.who ≡ who_begun result self.old.who }
    {
        self.answering.begin();
        let connected = self.connect(address);
        self.begun = self.begun.wrapping_add(1);
        match connected {
            Ok(stream) => {
                self.stream = Some(stream);
                self.last = of_system(ErrorKind::TimedOut);
                true
            }
            Err(error) => {
                self.endings.close();
                self.fail(of_system(error.kind()));
                false
            }
        }
    }

    fn opening(&mut self) -> Opening
        ensures keys { self.new.keys ≡ self.old.keys }
        ensures turned { self.new.turned ≡ turned_at result self.new.last self.old.turned }
        ensures who { IsWhoAt C.Socket.remaining self.old.call result self.old.who self.new.who }
    {
        let open = self.is_open();
        self.note_open(open)
    }

    fn write(&mut self, bytes: &[u8]) -> WriteOutcome
        requires { bytes.now ≢ [] }
        ensures count { CountsTaken (length bytes.now) result }
        ensures keys { self.new.keys ≡ self.old.keys }
        ensures turned { self.new.turned ≡ self.old.turned }
        ensures who { self.new.who ≡ self.old.who }
    {
        match self.give(bytes) {
            WriteOutcome::Bytes { count } => {
                self.last = of_system(ErrorKind::ConnectionReset);
                WriteOutcome::Bytes { count }
            }
            WriteOutcome::Later => {
                self.last = of_system(ErrorKind::TimedOut);
                WriteOutcome::Later
            }
            WriteOutcome::Broke => {
                self.note_end(None);
                self.last = of_system(ErrorKind::ConnectionReset);
                WriteOutcome::Broke
            }
        }
    }

    /// What the desk says first tells who answers. What fits under a key says that nothing is wrong
    /// with it.
    fn hear(&mut self) -> Heard
        ensures keys { self.new.keys ≡ self.old.keys }
        ensures turned { self.new.turned ≡ turned_in result.outcome self.new.last self.old.turned }
        ensures who { self.new.who
            ≡ who_in result.outcome self.new.last (heard result.handed.items self.old.who) }
        ensures said { IsSaid C.Socket.remaining self.old.call result.handed.items }
    {
        let mut handed = Vec::new(self.alloc);
        let (outcome, told) = self.read(&mut handed);
        self.note_handed(&handed);
        self.note_heard(outcome, told);
        Heard { handed, outcome }
    }

    fn trouble(&self) -> ConnectionTrouble
        ensures { result ≡ self.now.last }
    {
        self.last
    }

    fn take_foreign(&mut self) -> bool
        ensures foreign { result ≡ self.old.who.foreign }
        ensures taken { self.new
            ≡ record self.old { who = record self.old.who { foreign = false } } }
    {
        self.answering.take_foreign()
    }

    /// It is said to the desk that no more is sent, and what it still sends is read.
    fn close(&mut self)
        ensures { self.new ≡ record self.old { call = None } }
    {
        if let Some(stream) = self.stream.take() {
            self.endings.end(stream.socket);
        }
    }

    /// A connection is kept until the desk has ended it too, for two seconds at most. No more than
    /// sixteen are kept.
    fn end_closed(&mut self, now: u64)
        ensures { self.new ≡ self.old }
    {
        self.endings.go_on(now);
    }
}
