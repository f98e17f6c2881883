//! The connection of a dialogue to a desk of a hall.

ghost use Rattle.std.specs.Prelude.{◌≡◌, ◌++◌, ◌∷◌, [], false, ℕ, List, Option};
ghost use Rattle.std.specs.declared.net.SocketAddr.{SocketAddr};
ghost use Rattle.polled.specs.Telling.{Tells};
ghost use Rattle.desk_talks.specs.Dialogues.{Lost, Reaches};
ghost use Rattle.desk_talks.specs.declared.dialogue.ConnectionPhase.TheVariants as phase;
ghost use Rattle.desk_sockets.specs.Asking.{AsksLast, AsksNow};
ghost use Rattle.desk_sockets.specs.Wires.{Closed, Drives, Hears, Keeps, MakesOfEnd, Sees};
ghost use Rattle.desk_sockets.specs.Wires.{address_of, begun, closed_in};

use crate::desk_connection::{ConnectionOutcome, DeskConnection, Opening};
use crate::socket_connection::SocketConnection;
use desk_talks::{ConnectionPhase, Dialogue, DialogueAction, ReceiveOutcome};
use polled::WriteOutcome;
use polled::sockets::TcpConnector;
use std::net::SocketAddr;

/// How many wishes of a dialogue are fulfilled at once, more than there are between two moments of
/// rest.
const MOST_WISHES: u32 = 1024;

/// How often a connection is written to at once, more often than a dialogue has something to say
/// over it: a link has at most 63 frames of 300,004 bytes.
const MOST_TURNS: u32 = 2048;

/// What came of keeping a dialogue up.
#[derive(Clone, Copy, PartialEq, Eq, Debug)]
pub enum DialogueChange {
    /// The dialogue holds what it held.
    Same,
    /// What it holds has changed, or may have.
    Changed,
    /// Two desks of the hall reported different entries for one position. Nothing more is asked.
    Broken,
}

/// The connection of a dialogue over TCP.
pub type DeskStream<'a, R> = DialogueStream<SocketConnection<TcpConnector<'a, R>>>;

/// The connection of a dialogue to a desk of a hall, one at a time.
#[derive(Drop)]
pub struct DialogueStream<W> {
    pub wire: W,
    /// The address of desk 1, of desk 2 and so on, where it is known.
    pub addresses: Vec<Option<SocketAddr>>,
}

/// The address of a desk, 1 to 5, where it is known: that of desk 1 is the first one, and so on.
pub fn address_of(addresses: &[Option<SocketAddr>], desk: u8) -> Option<SocketAddr>
    ensures { result ≡ address_of addresses.now desk }
{
    match addresses.get(usize::from(desk).saturating_sub(1)) {
        Some(address) => *address,
        None => None,
    }
}

/// Tells the dialogue that the connection is lost, by its end or otherwise, and closes it.
fn lose<W: DeskConnection, D: Dialogue>(wire: &mut W, dialogue: &mut D, ended: bool)
    ensures keys { W.keys wire.new ≡ W.keys wire.old }
    ensures held { D.held dialogue.new ≡ D.held dialogue.old }
    ensures lost { D.leads (Lost ended) dialogue.old dialogue.new }
    ensures told { Tells (W.wired wire.old) (W.wired wire.new) (Closed ∷ []) }
{
    dialogue.lost(ended);
    wire.close();
}

/// Tells the dialogue whether the connection that is being opened is open.
fn look_whether_open<W: DeskConnection, D: Dialogue>(wire: &mut W, dialogue: &mut D)
    ensures keys { W.keys wire.new ≡ W.keys wire.old }
    ensures held { D.held dialogue.new ≡ D.held dialogue.old }
    ensures went { (now : ℕ) → Sees D.leads D.phase D.output phase.Opening now
        dialogue.old dialogue.new (W.wired wire.old) (W.wired wire.new) }
{
    match wire.opening() {
        Opening::Later => {}
        Opening::Open => {
            if dialogue.opened() {
                return;
            }
            wire.close();
        }
        Opening::Failed => lose(wire, dialogue, false),
    }
}

/// Tells the dialogue what became of its connection, which is closed where it ended.
fn end<W: DeskConnection, D: Dialogue>(wire: &mut W, dialogue: &mut D, outcome: ConnectionOutcome)
    ensures keys { W.keys wire.new ≡ W.keys wire.old }
    ensures held { D.held dialogue.new ≡ D.held dialogue.old }
    ensures makes { MakesOfEnd D.leads outcome dialogue.old dialogue.new }
    ensures went { (addresses : List (Option SocketAddr))
        → Drives D.leads D.phase D.output addresses dialogue.old dialogue.new []
        (W.wired wire.old) (W.wired wire.new) }
{
    match outcome {
        ConnectionOutcome::Nothing => {}
        ConnectionOutcome::Ended => lose(wire, dialogue, true),
        ConnectionOutcome::Broke => lose(wire, dialogue, false),
    }
}

/// Tells the dialogue what came over the connection. Whether what it holds has changed.
fn take<W: DeskConnection, D: Dialogue>(
    wire: &mut W,
    dialogue: &mut D,
    now: u64,
    handed: &[u8],
    outcome: ConnectionOutcome,
) -> bool
    ensures keys { W.keys wire.new ≡ W.keys wire.old }
    ensures held { result ≡ false → D.held dialogue.new ≡ D.held dialogue.old }
    ensures hears { Hears D.leads outcome now handed.now dialogue.old dialogue.new }
    ensures went { (addresses : List (Option SocketAddr))
        → Drives D.leads D.phase D.output addresses dialogue.old dialogue.new []
        (W.wired wire.old) (W.wired wire.new) }
{
    if handed.is_empty() {
        end(wire, dialogue, outcome);
        return false;
    }
    match dialogue.hear(now, handed) {
        ReceiveOutcome::Nothing => {
            end(wire, dialogue, outcome);
            false
        }
        ReceiveOutcome::Answer { changed } => {
            end(wire, dialogue, outcome);
            changed
        }
        ReceiveOutcome::NoAnswer => {
            wire.close();
            false
        }
    }
}

/// Tells the dialogue what has become of its connection, and what came over it. Whether what it
/// holds has changed.
fn look<W: DeskConnection, D: Dialogue>(wire: &mut W, dialogue: &mut D, now: u64) -> bool
    ensures keys { W.keys wire.new ≡ W.keys wire.old }
    ensures held { result ≡ false → D.held dialogue.new ≡ D.held dialogue.old }
    ensures went { Sees D.leads D.phase D.output (D.phase dialogue.old) now
        dialogue.old dialogue.new (W.wired wire.old) (W.wired wire.new) }
{
    match dialogue.phase() {
        ConnectionPhase::Closed => false,
        ConnectionPhase::Opening => {
            look_whether_open(wire, dialogue);
            false
        }
        ConnectionPhase::Open => {
            let heard = wire.hear();
            take(wire, dialogue, now, &heard.handed, heard.outcome)
        }
    }
}

/// Writes what the dialogue has to send, as much as the connection takes. One that fails counts as
/// lost.
fn write<W: DeskConnection, D: Dialogue>(wire: &mut W, dialogue: &mut D)
    ensures keys { W.keys wire.new ≡ W.keys wire.old }
    ensures held { D.held dialogue.new ≡ D.held dialogue.old }
    ensures went { (addresses : List (Option SocketAddr))
        → Drives D.leads D.phase D.output addresses dialogue.old dialogue.new []
        (W.wired wire.old) (W.wired wire.new) }
{
    for _write in 0..MOST_TURNS {
        let output = dialogue.output();
        if output.is_empty() {
            return;
        }
        match wire.write(output) {
            WriteOutcome::Bytes { count } => dialogue.sent(count),
            WriteOutcome::Later => return,
            WriteOutcome::Broke => {
                lose(wire, dialogue, false);
                return;
            }
        }
    }
}

/// Closes the connection that there was before, if there was one.
fn clear<W: DeskConnection>(wire: &mut W, before: ConnectionPhase)
    ensures keys { W.keys wire.new ≡ W.keys wire.old }
    ensures told { Tells (W.wired wire.old) (W.wired wire.new) (closed_in before) }
{
    match before {
        ConnectionPhase::Closed => {}
        ConnectionPhase::Opening => wire.close(),
        ConnectionPhase::Open => wire.close(),
    }
}

/// Begins a connection at this address, where it is known, in place of the one that there was
/// before. False: it can't be opened.
fn open<W: DeskConnection>(
    wire: &mut W,
    address: Option<SocketAddr>,
    before: ConnectionPhase,
) -> bool
    ensures keys { W.keys wire.new ≡ W.keys wire.old }
    ensures told { Tells (W.wired wire.old) (W.wired wire.new) (closed_in before ++ begun address) }
{
    clear(wire, before);
    match address {
        Some(address) => wire.begin(address),
        None => false,
    }
}

/// Fulfils what the dialogue wishes now.
fn fulfil_next<W: DeskConnection, D: Dialogue>(
    wire: &mut W,
    dialogue: &mut D,
    addresses: &[Option<SocketAddr>],
    now: u64,
) -> DialogueAction
    ensures keys { W.keys wire.new ≡ W.keys wire.old }
    ensures held { D.held dialogue.new ≡ D.held dialogue.old }
    ensures went { Drives D.leads D.phase D.output addresses.now dialogue.old dialogue.new []
        (W.wired wire.old) (W.wired wire.new) }
    ensures asked { AsksLast D.leads now dialogue.old dialogue.new }
{
    let before = dialogue.phase();
    match dialogue.act(now) {
        DialogueAction::Rest => DialogueAction::Rest,
        DialogueAction::Open { desk } => {
            if open(wire, address_of(addresses, desk), before) {
                return DialogueAction::Open { desk };
            }
            lose(wire, dialogue, false);
            DialogueAction::Open { desk }
        }
        DialogueAction::Write => {
            write(wire, dialogue);
            DialogueAction::Write
        }
        DialogueAction::Close => {
            wire.close();
            DialogueAction::Close
        }
        DialogueAction::Stop => {
            wire.close();
            DialogueAction::Stop
        }
    }
}

/// Fulfils what is to be done now. False: the hall is broken.
fn fulfil_all<W: DeskConnection, D: Dialogue>(
    wire: &mut W,
    dialogue: &mut D,
    addresses: &[Option<SocketAddr>],
    now: u64,
) -> bool
    ensures keys { W.keys wire.new ≡ W.keys wire.old }
    ensures held { D.held dialogue.new ≡ D.held dialogue.old }
    ensures went { Drives D.leads D.phase D.output addresses.now dialogue.old dialogue.new []
        (W.wired wire.old) (W.wired wire.new) }
    ensures asked { AsksLast D.leads now dialogue.old dialogue.new }
{
    for _wish in 0..MOST_WISHES {
        match fulfil_next(wire, dialogue, addresses, now) {
            DialogueAction::Rest => return true,
            DialogueAction::Stop => return false,
            DialogueAction::Open { .. } | DialogueAction::Write | DialogueAction::Close => {}
        }
    }
    true
}

impl<W: DeskConnection> DialogueStream<W> {
    /// Does all for a dialogue that can be done now, at this many milliseconds of a clock that
    /// doesn't go back, without waiting. It is to be called again once the socket is ready, or the
    /// time is over that the dialogue's `wait` says. A desk that has another key, or none, or has a
    /// key where there is none here, counts as lost.
    pub fn keep<D: Dialogue>(&mut self, dialogue: &mut D, now: u64) -> DialogueChange
        ensures keys { W.keys self.new.wire ≡ W.keys self.old.wire }
        ensures addresses { self.new.addresses ≡ self.old.addresses }
        ensures held { result ≡ DialogueChange.Same → D.held dialogue.new ≡ D.held dialogue.old }
        ensures went { Reaches D.leads dialogue.old dialogue.new }
        ensures told { Keeps D.leads D.phase D.output self.old.addresses.items
            dialogue.old dialogue.new (W.wired self.old.wire) (W.wired self.new.wire) }
        ensures asked { AsksNow D.leads now dialogue.old dialogue.new }
        ensures rests { AsksLast D.leads now dialogue.old dialogue.new }
    {
        self.wire.end_closed(now);
        let changed = look(&mut self.wire, dialogue, now);
        write(&mut self.wire, dialogue);
        let whole = fulfil_all(&mut self.wire, dialogue, &self.addresses, now);
        match (whole, changed) {
            (false, _) => DialogueChange::Broken,
            (true, true) => DialogueChange::Changed,
            (true, false) => DialogueChange::Same,
        }
    }
}
