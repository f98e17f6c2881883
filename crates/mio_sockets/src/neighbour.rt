//! One other desk: its link, and how it is kept over its connection.

ghost use Rattle.std.specs.Prelude.{◌≡◌, ◌≤◌, IfSome, IfNone, Some};
ghost use Rattle.links.specs.Links.{wish_of};
ghost use Rattle.desk_sockets.specs.Wires.{address_of};
ghost use Rattle.mio_sockets.specs.{Keeping.IsKept, Linking.is_stuck, Linking.side};
ghost use Rattle.mio_sockets.specs.Waiting.{is_busy, is_opening, is_write, quiet_in, wait_in};
ghost use Rattle.mio_sockets.specs.Wiring.{TakesFrame, neighbour, new_line};
ghost use Rattle.links.specs.declared.stages.LinkAction.TheVariants as wish;

use desk_sockets::{ConnectionTrouble, DeskConnection, DialogueStream};
use desk_talks::{ConnectionPhase, Dialogue, DialogueAction, ReceiveOutcome};
use links::{Link, LinkAction, LinkStage, Notice, Notices, PushOutcome};
use std::alloc::Global;
use std::marker::Model;
use std::net::SocketAddr;

/// How long a connection may take nothing of what is to be sent, in milliseconds.
const STUCK: u64 = 3000;

/// The link to another desk, which is a dialogue: what is to be done over its connection is what
/// the link wishes. What comes is dropped.
#[derive(Drop)]
struct LinkedDesk {
    desk: u8,
    link: Link,
    /// When the link is kept, in milliseconds.
    now: u64,
}

impl Model for LinkedDesk {
    ghost use Rattle.mio_sockets.specs.Linking.{SideOf, side};

    ghost Value = { SideOf };

    ghost view = { λ d. side d.desk d.link d.now };
}

/// Whether a connection is being opened.
fn is_opening(stage: LinkStage) -> bool
    ensures { result ≡ is_opening stage }
{
    matches!(stage, LinkStage::Opening { .. })
}

/// Whether bytes are to be written.
fn is_write(wish: LinkAction) -> bool
    ensures { result ≡ is_write wish }
{
    matches!(wish, LinkAction::Write)
}

/// How long an open connection has taken nothing, in milliseconds.
fn quiet_in(stage: LinkStage, now: u64) -> u64
    ensures { result ≡ quiet_in stage now }
{
    match stage {
        LinkStage::Open { quiet, .. } => now.saturating_sub(quiet),
        _ => 0,
    }
}

/// Whether an open connection has taken nothing for three seconds.
fn is_stuck(link: &Link, now: u64) -> bool
    ensures { result ≡ is_stuck link.now now }
{
    quiet_in(link.stage(), now) >= STUCK
}

/// In how many milliseconds at most a link is to be kept again, where its socket doesn't become
/// ready before. None: not until a frame is pushed.
fn wait_in(link: &Link, now: u64) -> Option<u64>
    ensures wait { result ≡ wait_in link.now now }
    ensures soon { IfSome result (λ millis. millis ≤ 3000) }
    ensures rests { IfNone result (wish_of link.now now ≡ wish.Rest) }
{
    match link.wait(now) {
        Some(millis) => Some(millis),
        None => match link.wish(now) {
            LinkAction::Rest => None,
            LinkAction::Write => Some(STUCK.saturating_sub(quiet_in(link.stage(), now))),
            LinkAction::Open | LinkAction::Close | LinkAction::GiveUp => Some(0),
        },
    }
}

impl LinkedDesk {
    /// The link is kept at this moment.
    fn begin(&mut self, now: u64)
        ensures { self.new ≡ side self.old.desk self.old.link now }
    {
        self.now = now;
    }
}

impl Dialogue for LinkedDesk {
    ghost use Rattle.links.specs.Links.{pending};
    ghost use Rattle.mio_sockets.specs.Linking.{SideLeads, phase_of};

    ghost Held = { Unit {0} };

    // What comes changes nothing.
    ghost held = { λ _. tt };

    ghost leads = { SideLeads };

    ghost phase = { λ l. phase_of l.link.stage };

    ghost output = { λ l. pending l.link };

    fn act(&mut self, now: u64) -> DialogueAction {
        self.now = now;
        match self.link.wish(now) {
            LinkAction::Rest => DialogueAction::Rest,
            LinkAction::Open => {
                self.link.began(now);
                DialogueAction::Open { desk: self.desk }
            }
            // they are written each time that the link is kept
            LinkAction::Write => {
                if is_stuck(&self.link, now) {
                    self.link.failed(now);
                    return DialogueAction::Close;
                }
                DialogueAction::Rest
            }
            LinkAction::Close => {
                self.link.closed();
                match self.link.wish(now) {
                    LinkAction::Open => {
                        self.link.began(now);
                        DialogueAction::Open { desk: self.desk }
                    }
                    _ => DialogueAction::Close,
                }
            }
            LinkAction::GiveUp => {
                self.link.failed(now);
                DialogueAction::Close
            }
        }
    }

    fn phase(&self) -> ConnectionPhase {
        match self.link.stage() {
            LinkStage::Closed | LinkStage::Paused { .. } => ConnectionPhase::Closed,
            LinkStage::Opening { .. } => ConnectionPhase::Opening,
            LinkStage::Open { .. } => ConnectionPhase::Open,
        }
    }

    fn opened(&mut self) -> bool {
        self.link.opened(self.now);
        true
    }

    fn lost(&mut self, ended: bool) {
        if ended {
            self.link.ended(self.now);
            return;
        }
        self.link.failed(self.now);
    }

    fn output(&self) -> &[u8] {
        self.link.output()
    }

    fn sent(&mut self, count: usize) {
        let taken = count.min(self.link.output().len());
        if taken == 0 {
            return;
        }
        self.link.sent(self.now, taken);
    }

    fn hear(&mut self, _now: u64, _piece: &[u8]) -> ReceiveOutcome {
        ReceiveOutcome::Nothing
    }
}

/// The line that is due about a desk, if one is, once its link was kept, which failed first in a
/// row at this time, if it failed last. `foreign`: another hall or desk has answered.
fn due_line(notices: &mut Notices, since: Option<u64>, now: u64, foreign: bool) -> Option<Notice> {
    let due = match since {
        Some(_) => notices.failed(now),
        None => notices.reached(now),
    };
    if due.is_none() && foreign {
        return notices.foreign(now);
    }
    due
}

/// Another desk, and the connection to it.
///
/// A contract sees the desk with its link, the connection, and where it leads.
#[derive(Drop)]
pub struct Neighbour<W> {
    address: SocketAddr,
    side: LinkedDesk,
    stream: DialogueStream<W>,
    notices: Notices,
    /// How many frames were dropped because memory was refused, or they had no bytes.
    lost: u64,
}

impl<W> Model for Neighbour<W> {
    ghost use Rattle.std.specs.Prelude.{◌≡◌, Some};
    ghost use Rattle.desk_sockets.specs.Wires.{address_of};
    ghost use Rattle.mio_sockets.specs.Wiring.{NeighbourOf, line, neighbour};

    ghost Value = { NeighbourOf W };

    ghost view = { λ n. neighbour (line n.side.desk n.address n.side.link n.notices
        n.lost) n.stream.wire n.stream.addresses.items };

    ghost invariant = { λ n. address_of n.stream.addresses.items n.side.desk
        ≡ Some n.address };
}

impl<W: DeskConnection> Neighbour<W> {
    /// The desk with this number at this address, which is its own among those of desk 1, of desk 2
    /// and so on, and the connection to it, which isn't begun.
    pub fn new(
        alloc: Global,
        desk: u8,
        address: SocketAddr,
        addresses: Vec<Option<SocketAddr>>,
        wire: W,
    ) -> Neighbour<W>
        requires { address_of addresses.items desk ≡ Some address }
        ensures { result ≡ neighbour (new_line desk address) wire addresses.items }
    {
        let link = Link::new(alloc);
        Neighbour {
            address,
            side: LinkedDesk { desk, link, now: 0 },
            stream: DialogueStream { wire, addresses },
            notices: Notices::new(),
            lost: 0,
        }
    }

    pub fn desk(&self) -> u8
        ensures { result ≡ self.now.line.desk }
    {
        self.side.desk
    }

    pub fn address(&self) -> SocketAddr
        ensures { result ≡ self.now.line.address }
    {
        self.address
    }

    /// What went wrong last with the connection.
    pub fn trouble(&self) -> ConnectionTrouble {
        self.stream.wire.trouble()
    }

    /// In how many milliseconds at most the link is to be kept again, where its socket doesn't
    /// become ready before. None: not until a frame is pushed.
    pub fn wait(&self, now: u64) -> Option<u64>
        ensures wait { result ≡ wait_in self.now.line.link now }
        ensures soon { IfSome result (λ millis. millis ≤ 3000) }
        ensures rests { IfNone result (wish_of self.now.line.link now ≡ wish.Rest) }
    {
        wait_in(&self.side.link, now)
    }

    /// Whether something is still to be sent to a desk that is not known to be out of reach.
    pub fn is_busy(&self, now: u64) -> bool
        ensures { result ≡ is_busy now self.now }
    {
        let link = &self.side.link;
        link.unreachable_since().is_none() && (is_opening(link.stage()) || is_write(link.wish(now)))
    }

    /// Gives a frame to the link. Where it has no bytes, or memory is refused for it, it is
    /// dropped, and counted.
    pub fn push(&mut self, alloc: Global, frame: &[u8])
        ensures frame { TakesFrame frame.now self.old.line self.new.line }
        ensures wire { self.new.wire ≡ self.old.wire }
    {
        if !frame.is_empty()
            && let Ok(copy) = Vec::from_slice(alloc, frame)
            && self.side.link.push(copy) != PushOutcome::NoMemory
        {
            return;
        }
        self.lost = self.lost.saturating_add(1);
    }

    /// Drives the link over its connection. The line that is due, if one is.
    pub fn keep(&mut self, now: u64) -> Option<Notice>
        ensures { IsKept W.wired now self.old self.new }
    {
        self.side.begin(now);
        let _kept = self.stream.keep(&mut self.side, now);
        let foreign = self.stream.wire.take_foreign();
        let since = self.side.link.unreachable_since();
        due_line(&mut self.notices, since, now, foreign)
    }
}
