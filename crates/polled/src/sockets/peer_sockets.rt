//! The sockets of peers over TCP.

ghost use Rattle.std.specs.Prelude.{◌≡◌, ◌+◌, length, true, false, IfOk};
ghost use Rattle.std.specs.List.Sorted.{IsNonDecreasing};
ghost use Rattle.polled.specs.Counts.{CountsGiven, CountsTaken};
ghost use Rattle.polled.specs.sockets.Agendas.{GoesOn, IsOver, NamesNext, round};
ghost use Rattle.polled.specs.sockets.Sockets.{IsFresh, LetsIn, OthersStay, SameElse};
ghost use Rattle.polled.specs.sockets.Sockets.{SameStay, is_full, stays};

use crate::sockets::agenda::Agenda;
use crate::sockets::outcomes::{accepted_by, given_by, taken_by};
use crate::sockets::random::drawn;
use crate::sockets::streams::{MOST_ENDING, Streams};
use crate::sockets::tokens::{PolledSocket, listener_token, peer_token, source_of};
use crate::{AcceptedPeer, ReadOutcome, Ready, Sockets, WriteOutcome};
use mio::net::{TcpListener, TcpStream};
use mio::{Events, Interest, Poll, Registry};
use prompt_lines::PromptLines;
use std::alloc::Global;
use std::io;
use std::io::{Read, Write};
use std::marker::Model;
use std::net::{Net, SocketAddr};
use std::random::RandomSource;
use std::time::{Clock, Duration, Instant};

/// How many sockets that are ready are named at once, beside those of open connections: those that
/// are ending, the listener, and the program's own.
const MOST_OTHERS: usize = MOST_ENDING + 16;

/// How many milliseconds lie between two lines that say that the system has no more sockets.
const BETWEEN_LINES: u64 = 60_000;

/// Such a line.
const NO_SOCKET: &[u8] = b"too many open files, or no memory: who was silent longest is let go\n";

/// The sockets of peers over TCP, each by the number under which it was accepted, and one poll that
/// tells which of them is ready. No call but `ready` waits.
///
/// At most as many connections are open at once as was asked for, and 64 more are ending: the peer
/// knows that no more comes, and what it still sends is read and dropped, for two seconds at most,
/// so that what it was sent isn't lost by a reset.
///
/// A contract sees how many connections may be open at once, which ones are, whether a round was
/// begun and isn't over, and what of it is still to be named.
#[derive(Drop)]
pub struct PeerSockets<'a, R> {
    system: &'a R,
    /// The number of the program's start.
    start: u64,
    poll: Poll,
    events: Events,
    listener: TcpListener,
    streams: Streams,
    agenda: Agenda,
    /// Whether a round was begun, of which more may be to be named.
    in_round: bool,
    /// When the first round was over.
    first_over: Option<Instant>,
    /// When the last round was over, in milliseconds after the first one.
    last_over: u64,
    /// Whether the system had no more sockets for the peer that waited last.
    scarce: bool,
    /// Whether the system isn't asked to tell when somebody waits.
    deaf: bool,
    /// Where it is said that the system has no more sockets, and when that was said last.
    lines: Option<PromptLines>,
    told: Option<u64>,
}

impl<'a, R> Model for PeerSockets<'a, R> {
    ghost use Rattle.polled.specs.sockets.Agendas.{round};
    ghost use Rattle.polled.specs.sockets.Sockets.{SocketsOf, sockets};

    ghost Value = { SocketsOf };

    ghost view = { λ s.
        sockets s.streams.most s.streams.staying.entries (round s.in_round s.agenda) };
}

/// Puts onto the agenda which peers are ready, and reads on of those whose connection is ending.
fn note_all(events: &Events, registry: &Registry, streams: &mut Streams, agenda: &mut Agenda)
    ensures most { streams.new.most ≡ streams.old.most }
    ensures staying { streams.new.staying ≡ streams.old.staying }
{
    for event in events.iter() {
        match source_of(event.token()) {
            PolledSocket::Listener => agenda.add_listener(),
            PolledSocket::Other => {}
            PolledSocket::Peer { number } => {
                if streams.is_open(number) {
                    let _noted = agenda.add(number);
                } else {
                    streams.hear_ending(registry, number);
                }
            }
        }
    }
}

impl<'a, R: Net + Clock> PeerSockets<'a, R> {
    /// Listens at this address, at the program's start of this number. At most this many
    /// connections are open at once. No round was begun. Where the system has no more sockets for a
    /// peer that comes, a line says so where lines are given, one a minute at most.
    pub fn listen(
        runtime: &'a R,
        alloc: Global,
        address: SocketAddr,
        most: usize,
        start: u64,
        lines: Option<PromptLines>,
    ) -> io::Result<Self>
        ensures { IfOk result (IsFresh most) }
    {
        let most_ready = most.saturating_add(MOST_OTHERS);
        let mut listener = TcpListener::bind(runtime, address)?;
        let poll = Poll::new(runtime)?;
        poll.registry()
            .register(&mut listener, listener_token(), Interest::READABLE)?;
        Ok(PeerSockets {
            system: runtime,
            start,
            poll,
            events: Events::with_capacity(alloc, most_ready)?,
            listener,
            streams: Streams::new(alloc, most)?,
            agenda: Agenda::new(alloc, most_ready)?,
            in_round: false,
            first_over: None,
            last_over: 0,
            scarce: false,
            deaf: false,
            lines,
            told: None,
        })
    }
}

impl<R> PeerSockets<'_, R> {
    /// Where it listens; the port is the system's choice where that of `listen` was 0.
    pub fn address(&self) -> io::Result<SocketAddr> {
        self.listener.local_addr()
    }

    /// Another owner of the poll's sockets, for the program's own, under `own_token`. Where one of
    /// them is ready, a round is over.
    pub fn registry(&self) -> io::Result<Registry> {
        self.poll.registry().try_clone()
    }

    /// Asks the system to tell when somebody waits.
    fn listen_on(&mut self)
        ensures { self.new ≡ self.old }
    {
        let registry = self.poll.registry();
        let asked = registry.reregister(&mut self.listener, listener_token(), Interest::READABLE);
        self.deaf = asked.is_err();
    }

    /// Begins a round: waits until something is ready, this many milliseconds at most. False: the
    /// system doesn't tell it.
    fn begin_round(&mut self, wait: u64) -> bool
        requires { self.old.round.begun ≡ false }
        ensures begun { self.new.round.begun ≡ result }
        ensures order { IsNonDecreasing self.new.round.left.numbers }
        ensures most { self.new.most ≡ self.old.most }
        ensures staying { SameStay self.old self.new }
    {
        self.agenda.begin();
        let timeout = Some(Duration::from_millis(wait));
        if self.poll.poll(&mut self.events, timeout).is_err() {
            self.agenda.order();
            return false;
        }
        let registry = self.poll.registry();
        note_all(&self.events, registry, &mut self.streams, &mut self.agenda);
        self.agenda.order();
        if self.deaf && self.events.is_empty() {
            self.listen_on();
        }
        self.in_round = true;
        true
    }

    /// Takes the peer that waits. Where the system has no more sockets, those of connections that
    /// are ending are given up for it.
    fn take(&mut self) -> io::Result<TcpStream>
        ensures { self.new ≡ self.old }
    {
        match self.listener.accept() {
            Ok((stream, _)) => Ok(stream),
            Err(error) => {
                if accepted_by(&error) == AcceptedPeer::Full && self.streams.close_ending() {
                    let (stream, _) = self.listener.accept()?;
                    return Ok(stream);
                }
                Err(error)
            }
        }
    }

    /// Says that the system has no more sockets, unless that was said a short while ago.
    fn tell_scarce(&mut self)
        ensures { self.new ≡ self.old }
    {
        let now = self.last_over;
        if let Some(then) = self.told
            && now.saturating_sub(then) < BETWEEN_LINES
        {
            return;
        }
        if let Some(lines) = &mut self.lines {
            let _ = lines.write(NO_SOCKET);
            self.told = Some(now);
        }
    }
}

impl<R: RandomSource> PeerSockets<'_, R> {
    /// Lets the peer in that waits. Where the system gives no random bytes for it, it is let go.
    fn let_in(&mut self, number: u64) -> AcceptedPeer
        ensures full { is_full self.old ≡ true → result ≡ AcceptedPeer.Full }
        ensures came { LetsIn result (stays self.old number) (stays self.new number) }
        ensures others { OthersStay number self.old self.new }
        ensures same { SameElse self.old self.new }
    {
        if self.streams.is_full() || peer_token(number).is_none() {
            return AcceptedPeer::Full;
        }
        let stream = match self.take() {
            Ok(stream) => stream,
            Err(error) => return accepted_by(&error),
        };
        let Ok(random) = drawn(self.system, self.start, number) else {
            return AcceptedPeer::Nobody;
        };
        if self.streams.enter(self.poll.registry(), number, stream) {
            AcceptedPeer::Came { random }
        } else {
            AcceptedPeer::Full
        }
    }
}

impl<R: Clock> PeerSockets<'_, R> {
    /// How many milliseconds have gone since the first round was over.
    fn time(&mut self) -> io::Result<u64>
        ensures { self.new ≡ self.old }
    {
        let start = match self.first_over {
            Some(start) => start,
            None => Instant::now(self.system)?,
        };
        self.first_over = Some(start);
        let millis = start.elapsed(self.system)?.as_millis();
        Ok(u64::try_from(millis).unwrap_or(u64::MAX))
    }

    /// Ends a round.
    fn end_round(&mut self) -> Ready
        ensures over { IsOver result }
        ensures round { self.new.round ≡ round false self.old.round.left }
        ensures most { self.new.most ≡ self.old.most }
        ensures staying { SameStay self.old self.new }
    {
        self.in_round = false;
        match self.time() {
            Ok(now) => {
                self.last_over = now;
                self.streams.close_late(now);
                Ready::Round { now }
            }
            Err(_) => Ready::Failed,
        }
    }

    /// Names what comes next in the round, or ends it.
    fn name_next(&mut self) -> Ready
        requires { self.old.round.begun ≡ true }
        ensures named { GoesOn result self.old.round.left self.new.round }
        ensures most { self.new.most ≡ self.old.most }
        ensures staying { SameStay self.old self.new }
    {
        match self.agenda.next() {
            Some(ready) => ready,
            None => self.end_round(),
        }
    }
}

impl<R: Clock + RandomSource> Sockets for PeerSockets<'_, R> {
    ghost use Rattle.std.specs.Prelude.{None};

    // The system tells nothing of what peers send and take beyond what its calls answer, and no
    // call is noted.
    ghost happened = { λ _. None };

    ghost requests = { λ _. None };

    /// A round is begun where the last one is over. First of a round is named that somebody waits,
    /// then the peers in the order of their numbers, and then it is over.
    fn ready(&mut self, wait: u64) -> Ready
        ensures named { NamesNext result self.old.round self.new.round }
        ensures most { self.new.most ≡ self.old.most }
        ensures staying { SameStay self.old self.new }
    {
        if !self.in_round && !self.begin_round(wait) {
            return Ready::Failed;
        }
        self.name_next()
    }

    /// The random bytes are new, mixed with the numbers of the program's start and of the peer.
    /// Where the system gives none, the peer isn't let in. Where as many connections are open as
    /// may be, nobody is.
    // The system tells anew that somebody waits once it is asked anew. Where it has no more sockets
    // and no peer can be let go, it is asked once it has nothing else to tell, so that nobody asks
    // again and again.
    fn accept(&mut self, number: u64) -> AcceptedPeer
        ensures full { is_full self.old ≡ true → result ≡ AcceptedPeer.Full }
        ensures came { LetsIn result (stays self.old number) (stays self.new number) }
        ensures others { OthersStay number self.old self.new }
        ensures same { SameElse self.old self.new }
    {
        let accepted = self.let_in(number);
        self.scarce = accepted == AcceptedPeer::Full;
        if self.scarce {
            self.tell_scarce();
        }
        if self.scarce && self.streams.is_empty() {
            self.deaf = true;
        } else {
            self.listen_on();
        }
        accepted
    }

    fn read(&mut self, number: u64, buffer: &mut [u8; 4096]) -> ReadOutcome
        ensures count { CountsGiven (length buffer.new) result }
        ensures closed { stays self.old number ≡ false → result ≡ ReadOutcome.Broke }
        ensures same { self.new ≡ self.old }
    {
        let Some(mut source) = self.streams.staying.get(&number) else {
            return ReadOutcome::Broke;
        };
        given_by(source.read(buffer))
    }

    fn write(&mut self, number: u64, bytes: &[u8]) -> WriteOutcome
        ensures count { CountsTaken (length bytes.now) result }
        ensures closed { stays self.old number ≡ false → result ≡ WriteOutcome.Broke }
        ensures same { self.new ≡ self.old }
    {
        let Some(mut sink) = self.streams.staying.get(&number) else {
            return WriteOutcome::Broke;
        };
        taken_by(sink.write(bytes))
    }

    fn watch(&mut self, number: u64, writes: bool) -> bool
        ensures closed { stays self.old number ≡ false → result ≡ false }
        ensures staying { SameStay self.old self.new }
        ensures same { SameElse self.old self.new }
    {
        self.streams.watch(self.poll.registry(), number, writes)
    }

    fn close(&mut self, number: u64)
        ensures ended { stays self.new number ≡ false }
        ensures others { OthersStay number self.old self.new }
        ensures same { SameElse self.old self.new }
    {
        self.streams
            .end(self.poll.registry(), number, self.last_over, self.scarce);
        if self.deaf {
            self.listen_on();
        }
    }
}
