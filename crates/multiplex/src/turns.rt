//! One client that is ready: a write or a read, the messages of desks that came, and one frame of a
//! client. What they change is settled before anything of theirs is sent.

ghost use Rattle.std.specs.Prelude.{◌≡◌, ◌≢◌, [], None, Some, false};
ghost use Rattle.guarded.specs.LockedConnections.{WantsRead, moment};
ghost use Rattle.wire.specs.Ranges.{IsDifference};
ghost use Rattle.multiplex.specs.{Noting.AreNoted, model.Scenes.TalksThenSettles, Scenes.scene};
ghost use Rattle.polled.specs.Requests.{Asks};
ghost use Rattle.multiplex.specs.model.Asking.{AsksMove, AsksSome, BeginsWithMove, Hears, Offers};
ghost use Rattle.multiplex.specs.model.Visiting.{MayBegin, Moves, Reads, Sends, ServesAlone};
ghost use Rattle.multiplex.specs.model.Visiting.{ServesOne, spot};
ghost use Rattle.multiplex.specs.declared.ends.EndReason.TheVariants as why;

use crate::dear::DearTurns;
use crate::ends::EndReason;
use crate::notes::{Notes, listen, put_off};
use crate::own_frames::{OwnLinks, settle};
use crate::table::Guest;
use answers::Desk;
use guarded::LockedConnection;
use polled::{ReadOutcome, Sockets, WriteOutcome};
use serving::Peers;
use std::alloc::Global;
use wire::{Difference, Version};

/// Writes once what is to be sent. False: the write failed.
pub(crate) fn send<C: Sockets>(number: u64, talk: &mut LockedConnection, clients: &mut C) -> bool
    requires { talk.old.output ≢ [] }
    ensures sends { Sends C.happened number result clients.old clients.new talk.old talk.new }
    ensures asks { Asks C.requests clients.old clients.new (Offers number talk.old.output) }
{
    match clients.write(number, talk.output()) {
        WriteOutcome::Bytes { count } => {
            talk.sent(count);
            true
        }
        WriteOutcome::Later => true,
        WriteOutcome::Broke => false,
    }
}

/// Whether the next frame may be begun now, where one is to be begun. If not, it is put off.
fn may_begin<D: Desk>(
    number: u64,
    talk: &LockedConnection,
    notes: &mut Notes,
    dear: &mut DearTurns,
    time: u64,
    node: &D,
) -> bool
    requires home { D.home_of node.now ≡ talk.now.talk.home }
    ensures { MayBegin result (D.home_of node.now) (D.seen node.now) time talk.now notes.old
        notes.new dear.old.spent dear.new.spent }
{
    if put_off(talk, notes, node, time) {
        return false;
    }
    if !talk.is_dear() {
        return true;
    }
    dear.ask(number, talk.has_key())
}

/// Serves the next frame, if one waits and is not put off, and says whether it did.
fn serve_one<D: Desk, P: Peers>(
    number: u64,
    talk: &mut LockedConnection,
    notes: &mut Notes,
    dear: &mut DearTurns,
    time: u64,
    differs: Option<Difference>,
    node: &mut D,
    peers: &mut P,
) -> bool
    requires home { D.home_of node.old ≡ talk.old.talk.home }
    requires differs { IsDifference differs }
    ensures served { ServesOne D.Desk P.Peers Some number time None result dear.old.spent
        dear.new.spent notes.old notes.new (spot node.old peers.old [] talk.old)
        (spot node.new peers.new [] talk.new) }
    ensures known { notes.new.known ≡ notes.old.known }
    ensures node { D.home_of node.new ≡ D.home_of node.old }
{
    if !may_begin(number, talk, notes, dear, time, node) {
        return false;
    }
    talk.advance(node, peers, differs)
}

/// Serves the messages of desks that come next, and then one frame of a client, if one waits and is
/// not put off. It says whether it served one of a client. Nothing is sent.
fn serve_next<D: Desk, P: Peers>(
    number: u64,
    talk: &mut LockedConnection,
    notes: &mut Notes,
    dear: &mut DearTurns,
    time: u64,
    differs: &mut Option<Difference>,
    node: &mut D,
    peers: &mut P,
) -> bool
    requires home { D.home_of node.old ≡ talk.old.talk.home }
    requires noted { AreNoted notes.old.known differs.old }
    ensures served { ServesAlone D.Desk P.Peers number time result dear.old dear.new
        notes.old notes.new differs.old differs.new
        (moment node.old peers.old talk.old) (moment node.new peers.new talk.new) }
    ensures noted { AreNoted notes.new.known differs.new }
    ensures node { D.home_of node.new ≡ D.home_of node.old }
{
    while talk.hears_desk() {
        listen(talk, notes, differs, node);
        talk.advance(node, peers, *differs);
    }
    serve_one(number, talk, notes, dear, time, *differs, node, peers)
}

/// Offers what is to be sent, where a frame was served. What was served is settled by then. False:
/// the write failed.
fn answer<D: Desk, C: Sockets>(
    number: u64,
    talk: &mut LockedConnection,
    served: bool,
    clients: &mut C,
    node: &D,
) -> bool
    requires settled { D.is_settled node.now }
    ensures sends { Sends C.happened number result clients.old clients.new talk.old talk.new }
    ensures rests { served ≡ false → talk.new ≡ talk.old }
    ensures asks { Asks C.requests clients.old clients.new AsksSome }
{
    if !served {
        return true;
    }
    if !talk.wants_write() {
        return true;
    }
    send(number, talk, clients)
}

/// Reads once. None: a piece came, or nothing did.
fn read<C: Sockets>(number: u64, talk: &mut LockedConnection, clients: &mut C) -> Option<EndReason>
    requires { WantsRead talk.old }
    ensures reads { Reads C.happened number result clients.old clients.new talk.old talk.new }
    ensures going { result ≢ Some why.Over }
    ensures asks { Asks C.requests clients.old clients.new (Hears number) }
{
    let mut buffer = [0; 4096];
    match clients.read(number, &mut buffer) {
        ReadOutcome::Bytes { count } => {
            talk.receive(&buffer[..count]);
            None
        }
        ReadOutcome::Later => None,
        ReadOutcome::Ended => Some(EndReason::Ended),
        ReadOutcome::Broke => Some(EndReason::Broke),
    }
}

/// Writes once what is to be sent, or else reads once where all that came is served. Where that
/// ends the connection, it says why.
fn move_bytes<C: Sockets>(
    number: u64,
    talk: &mut LockedConnection,
    clients: &mut C,
) -> Option<EndReason>
    ensures moves { Moves C.happened number result clients.old clients.new talk.old talk.new }
    ensures going { result ≢ Some why.Over }
    ensures asks { Asks C.requests clients.old clients.new (AsksMove number talk.old) }
{
    if talk.wants_write() {
        return if send(number, talk, clients) {
            None
        } else {
            Some(EndReason::Broke)
        };
    }
    if talk.wants_read() {
        return read(number, talk, clients);
    }
    None
}

/// Writes or reads once, and serves the messages of desks that come next and one frame of a client.
/// Where one of a desk came, what this desk has said to itself by then is heard too. What these
/// change is settled before the answer is sent. Where the connection is to be ended now, it says
/// why.
pub(crate) fn talk_on<D: Desk, C: Sockets, L: OwnLinks>(
    alloc: Global,
    wire: Version,
    guest: &mut Guest,
    dear: &mut DearTurns,
    time: u64,
    differs: &mut Option<Difference>,
    clients: &mut C,
    node: &mut D,
    links: &mut L,
) -> Option<EndReason>
    requires home { D.home_of node.old ≡ guest.old.talk.talk.home }
    requires noted { AreNoted guest.old.notes.known differs.old }
    ensures talks { TalksThenSettles D.Desk L.Peers C.happened wire time result
        dear.old dear.new differs.old differs.new guest.old guest.new
        (scene node.old links.old clients.old) (scene node.new links.new clients.new) }
    ensures settled { result ≢ Some why.Over → D.is_settled node.old → D.is_settled node.new }
    ensures noted { AreNoted guest.new.notes.known differs.new }
    ensures asks { Asks C.requests clients.old clients.new
        (BeginsWithMove guest.old.number guest.old.talk) }
    ensures number { guest.new.number ≡ guest.old.number }
    ensures ready { guest.new.ready ≡ guest.old.ready }
    ensures node { D.home_of node.new ≡ D.home_of node.old }
{
    let number = guest.number;
    if let Some(why) = move_bytes(number, &mut guest.talk, clients) {
        return Some(why);
    }
    let hears = guest.talk.hears_desk();
    let served = serve_next(
        number,
        &mut guest.talk,
        &mut guest.notes,
        dear,
        time,
        differs,
        node,
        links,
    );
    if !settle(alloc, wire, hears, node, links) {
        return Some(EndReason::Over);
    }
    if !answer(number, &mut guest.talk, served, clients, node) {
        return Some(EndReason::Broke);
    }
    if guest.talk.is_done() {
        Some(EndReason::Done)
    } else {
        None
    }
}
