//! The steps of serving many clients: one comes, one is ready, one is let go, and time passes.

ghost use Rattle.std.specs.Prelude.{◌≡◌, ◌≢◌, ◌≤◌, ◌<◌, ◌-◌, ◌↔◌, ◌&&◌, [], length, None, Some};
ghost use Rattle.std.specs.Prelude.{Bool, false};
ghost use Rattle.std.specs.{Prelude.IsTrue, Prelude.is_some, List.AllByRecursion};
ghost use Rattle.multiplex.specs.{Passing.over_by, Passing.over_settled, Scenes.scene};
ghost use Rattle.multiplex.specs.model.Visiting.{Sends};
ghost use Rattle.multiplex.specs.Musts.{Accepts, Admits, AreEndsOf, Attends, IsEndOf, IsWoken};
ghost use Rattle.multiplex.specs.Musts.{MakesPlace, NoneIsSilent, OffersLast, WaitsToRead};
ghost use Rattle.polled.specs.Requests.{Asks};
ghost use Rattle.multiplex.specs.model.Asking.{AsksHosted, AsksSome, ClosesAt, MayClose};
ghost use Rattle.multiplex.specs.model.Asking.{KeepsWoken, WakesAll};
ghost use Rattle.multiplex.specs.model.Tables.{AreKept, IsKept, KeepsAll, KeepsKept, MakesRoom};
ghost use Rattle.multiplex.specs.model.Scenes.{AltersSome, AnswersThenSettles, Empties, EndsLast};
ghost use Rattle.multiplex.specs.model.Scenes.{HostsThenSettles, IsShut, Welcomes};
ghost use Rattle.multiplex.specs.{Noting.awakes, declared.ends.ServingEnd.ServingEnd as OverOf};
ghost use Rattle.multiplex.specs.{Noting.AreNoted, declared.ends.EndReason.EndReason as WhyOf};
ghost use Rattle.wire.specs.Ranges.{IsDifference};
ghost use Rattle.multiplex.specs.declared.table.ClientTable.{ClientTable as TableOf};
ghost use Rattle.multiplex.specs.declared.table.ServingOptions.{ServingOptions as TermsOf};
ghost use Rattle.store.specs.declared.home.Home.{Home};
ghost use Rattle.polled.specs.declared.answers.AcceptedPeer.TheVariants as accepted_is;
ghost use Rattle.multiplex.specs.declared.ends.EndReason.TheVariants as why;

use crate::dear::DearTurns;
use crate::ends::{EndReason, ServingEnd};
use crate::notes::{Notes, awaited_next, is_due};
use crate::own_frames::OwnLinks;
use crate::table::{ClientTable, Guest, MOST_OPEN, ServingOptions, longest_silent, ready_after};
use crate::turns::{send, talk_on};
use answers::Desk;
use guarded::LockedConnection;
use polled::{AcceptedPeer, Sockets};
use serving::ConnectionEnd;
use std::alloc::Global;
use wire::{Difference, Version};

/// Why serving is over once a connection that ended so was ended.
fn over_by(end: Option<ConnectionEnd>) -> Option<ServingEnd>
    ensures { result ≡ over_by end }
{
    match end {
        Some(ConnectionEnd::Stopped) => Some(ServingEnd::Stopped),
        Some(ConnectionEnd::Down) => Some(ServingEnd::Down),
        _ => None,
    }
}

/// Ends the connection at this place, and says why serving is over by that, if it is.
fn shut<C: Sockets>(table: &mut ClientTable, place: usize, clients: &mut C) -> Option<ServingEnd>
    requires { place < length table.old.guests.items }
    ensures shut { IsShut C.happened place result table.old table.new clients.old clients.new }
    ensures asks { Asks C.requests clients.old clients.new (ClosesAt place table.old.guests.items) }
{
    let guest = table.guests.remove(place);
    clients.close(guest.number);
    over_by(guest.talk.end())
}

/// Whether a client is to be named when it can be read from: all that came is served and all is
/// sent, or an Await is put off.
fn waits_to_read(guest: &Guest) -> bool
    ensures { IsTrue result ↔ WaitsToRead guest.now }
{
    if guest.talk.wants_read() {
        return true;
    }
    guest.notes.until.is_some()
}

/// Whether an Await that was put off still is.
fn stays_off(was_off: bool, guest: &Guest) -> bool
    ensures { result ≡ (was_off && is_some guest.now.notes.until) }
{
    was_off && guest.notes.until.is_some()
}

/// Lets a client that is ready have its turn. Where its connection is to be ended now, it says why:
/// serving is over where what it changed can't be settled. It is to be named again when it can be
/// read from, where all that came is served and answered, or an Await is put off, and else when it
/// can take bytes. While that Await is put off nothing more is asked: so bytes that come meanwhile
/// name it once, and not at each round.
fn host<D: Desk, C: Sockets, L: OwnLinks>(
    alloc: Global,
    wire: Version,
    guest: &mut Guest,
    time: u64,
    dear: &mut DearTurns,
    differs: &mut Option<Difference>,
    clients: &mut C,
    node: &mut D,
    links: &mut L,
) -> Option<EndReason>
    requires kept { IsKept (D.home_of node.old) guest.old.talk.talk.wire guest.old }
    requires differs { IsDifference differs.old }
    ensures hosts { HostsThenSettles D.Desk L.Peers C.happened wire time result
        dear.old dear.new differs.old differs.new guest.old guest.new
        (scene node.old links.old clients.old) (scene node.new links.new clients.new) }
    ensures settled { result ≢ Some why.Over → D.is_settled node.old → D.is_settled node.new }
    ensures asks { Asks C.requests clients.old clients.new
        (AsksHosted guest.old.number guest.old guest.new result) }
    ensures noted { AreNoted guest.new.notes.known differs.new }
    ensures home { D.home_of node.new ≡ D.home_of node.old }
{
    let number = guest.number;
    let before = guest.talk.begun();
    let was_off = guest.notes.until.is_some();
    if let Some(why) = talk_on(
        alloc, wire, guest, dear, time, differs, clients, node, links,
    ) {
        guest.ready = ready_after(time, before, guest.talk.begun(), guest.ready);
        return Some(why);
    }
    guest.ready = ready_after(time, before, guest.talk.begun(), guest.ready);
    if stays_off(was_off, guest) {
        return None;
    }
    if clients.watch(number, !waits_to_read(guest)) {
        None
    } else {
        Some(EndReason::Broke)
    }
}

/// Why serving is over once a connection was ended for this reason. `over`: what its own end says.
fn over_for(reason: EndReason, over: Option<ServingEnd>) -> Option<ServingEnd>
    ensures settled { (ok : Bool) → ((ok ≡ false) ↔ (Some reason ≡ Some why.Over))
        → result ≡ over_settled ok over }
    ensures goes_on { result ≡ None → reason ≢ why.Over }
{
    match reason {
        EndReason::Over => Some(ServingEnd::Down),
        _ => over,
    }
}

/// Lets the client with this number have its turn, if its connection is open, and says why serving
/// is over by that, if it is. Where what it changed can't be settled, the desk is down.
pub(crate) fn visit<D: Desk, C: Sockets, L: OwnLinks>(
    alloc: Global,
    table: &mut ClientTable,
    terms: ServingOptions,
    number: u64,
    clients: &mut C,
    node: &mut D,
    links: &mut L,
) -> Option<ServingEnd>
    requires kept { AreKept (D.home_of node.old) terms.wire table.old }
    ensures answers { AnswersThenSettles D.Desk L.Peers C.happened (D.home_of node.old) terms number
        result table.old table.new
        (scene node.old links.old clients.old) (scene node.new links.new clients.new) }
    ensures settled { result ≡ None → D.is_settled node.old → D.is_settled node.new }
    ensures asks { Asks C.requests clients.old clients.new
        (Attends number table.old.guests.items table.new.guests.items) }
    ensures kept { AreKept (D.home_of node.old) terms.wire table.new }
    ensures fewer { length table.new.guests.items ≤ length table.old.guests.items }
    ensures home { D.home_of node.new ≡ D.home_of node.old }
{
    let Some(place) = table.place_of(number) else {
        return None;
    };
    let time = table.time;
    let guest = &mut table.guests[place];
    match host(
        alloc,
        terms.wire,
        guest,
        time,
        &mut table.dear,
        &mut table.differs,
        clients,
        node,
        links,
    ) {
        None => None,
        Some(why) => {
            let over = shut(table, place, clients);
            over_for(why, over)
        }
    }
}

/// Lets the client go that wasn't ready for the longest time.
fn crowd_out<C: Sockets>(table: &mut ClientTable, clients: &mut C) -> Option<ServingEnd>
    ensures alters { (home : Home) (t : TermsOf) (w : WhyOf) → MakesRoom w table.old.guests.items
        → AltersSome C.happened home t result table.old table.new clients.old clients.new }
    ensures asks { Asks C.requests clients.old clients.new
        (MakesPlace 0 (length table.old.guests.items) accepted_is.Full) }
    ensures kept { KeepsAll table.old table.new }
    ensures next { table.new.next ≡ table.old.next }
    ensures fewer { length table.new.guests.items ≡ length table.old.guests.items - 1 }
{
    let place = longest_silent(&table.guests)?;
    shut(table, place, clients)
}

/// Lets those clients go that weren't ready for longer than a client is waited for.
pub(crate) fn let_go<C: Sockets>(
    table: &mut ClientTable,
    patience: u64,
    clients: &mut C,
) -> Option<ServingEnd>
    ensures alters { (home : Home) (t : TermsOf) → t.patience ≡ patience
        → AltersSome C.happened home t result table.old table.new clients.old clients.new }
    ensures silent { result ≡ None → NoneIsSilent patience table.new }
    ensures time { table.new.time ≡ table.old.time }
    ensures asks { Asks C.requests clients.old clients.new AsksSome }
    ensures kept { KeepsAll table.old table.new }
    ensures woken { KeepsWoken table.old.guests.items table.new.guests.items }
    ensures fewer { length table.new.guests.items ≤ length table.old.guests.items }
{
    while let Some(place) = table.place_of_silent(patience) {
        if let Some(over) = shut(table, place, clients) {
            return Some(over);
        }
    }
    None
}

/// Whether an Await of a client is put off, and is to be answered now.
fn is_awake<D: Desk>(guest: &Guest, node: &D, time: u64) -> bool
    ensures { result ≡ awakes (D.home_of node.now) (D.seen node.now) time guest.now.talk
        guest.now.notes }
{
    let Some(until) = guest.notes.until else {
        return false;
    };
    match awaited_next(&guest.talk, node.home()) {
        Some(awaited) => is_due(node, awaited, until, time),
        None => true,
    }
}

/// Has a client named in the next round, where an Await of it is put off that is to be answered
/// now: it can take bytes. One that the system refuses to name is let go when it was silent for too
/// long.
fn wake_one<D: Desk, C: Sockets>(guest: &Guest, time: u64, clients: &mut C, node: &D)
    ensures told { (home : Home) (t : TermsOf) (table : TableOf)
        → AltersSome C.happened home t None table table clients.old clients.new }
    ensures asks { Asks C.requests clients.old clients.new (λ asked.
        IsWoken (D.home_of node.now) (D.seen node.now) time asked guest.now) }
{
    if !is_awake(guest, node, time) {
        return;
    }
    clients.watch(guest.number, true);
}

/// Has those clients named in the next round of which an Await is put off that is to be answered
/// now.
pub(crate) fn wake<D: Desk, C: Sockets>(table: &ClientTable, clients: &mut C, node: &D)
    ensures told { (home : Home) (t : TermsOf)
        → AltersSome C.happened home t None table.now table.now clients.old clients.new }
    ensures asks { Asks C.requests clients.old clients.new (WakesAll (D.home_of node.now)
        (D.seen node.now) table.now.time table.now.guests.items) }
{
    for guest in &table.guests {
        wake_one(guest, table.time, clients, node);
    }
}

/// Offers a client once more what is to be sent to it, where there is such. False: the write
/// failed.
fn offer_last<C: Sockets>(number: u64, talk: &mut LockedConnection, clients: &mut C) -> bool
    ensures sends { Sends C.happened number result clients.old clients.new talk.old talk.new }
    ensures asks { Asks C.requests clients.old clients.new (OffersLast number talk.old.output) }
{
    if !talk.wants_write() {
        return true;
    }
    send(number, talk, clients)
}

/// Ends the connection of a client, to which what it has not taken is offered once more.
fn end_last<C: Sockets>(guest: &mut Guest, clients: &mut C)
    ensures told { EndsLast C.happened clients.old clients.new guest.old guest.new.talk }
    ensures asks { Asks C.requests clients.old clients.new (IsEndOf guest.old) }
{
    offer_last(guest.number, &mut guest.talk, clients);
    clients.close(guest.number);
}

/// Ends all connections that are open. What a client has not taken of its answers is offered to it
/// once more, without waiting.
pub(crate) fn let_all_go<C: Sockets>(table: &mut ClientTable, clients: &mut C)
    ensures told { (home : Home) (t : TermsOf) (over : OverOf)
        → Empties C.happened home t over table.old table.new clients.old clients.new }
    ensures asks { Asks C.requests clients.old clients.new (AreEndsOf table.old.guests.items) }
    ensures empty { table.new.guests.items ≡ [] }
{
    while let Some(mut guest) = table.guests.pop() {
        end_last(&mut guest, clients);
    }
}

/// Gives the client that came a connection, with these random bytes. Where there is no memory for
/// it, it is ended.
fn welcome<D: Desk, C: Sockets>(
    alloc: Global,
    table: &mut ClientTable,
    terms: ServingOptions,
    random: [u8; 16],
    clients: &mut C,
    node: &D,
)
    requires { table.old.next < terms.most }
    ensures welcomes { Welcomes C.happened (D.home_of node.now) terms random (D.seen node.now)
        table.old table.new clients.old clients.new }
    ensures asks { Asks C.requests clients.old clients.new (MayClose table.old.next) }
    ensures most { AllByRecursion (λ len. len ≤ 65536) (D.seen node.now).told }
{
    let number = table.next;
    let notes = Notes::new(node);
    let ready = table.time;
    table.next += 1;
    let Ok(talk) = LockedConnection::new(alloc, node, terms.wire, terms.doors, random) else {
        clients.close(number);
        return;
    };
    let guest = Guest {
        number,
        talk,
        notes,
        ready,
    };
    if table.guests.push(guest).is_err() {
        clients.close(number);
    }
}

/// Accepts the client that waits. Where the system has no more sockets, the one that wasn't ready
/// for the longest time is let go.
fn enter<D: Desk, C: Sockets>(
    alloc: Global,
    table: &mut ClientTable,
    terms: ServingOptions,
    clients: &mut C,
    node: &D,
) -> Option<ServingEnd>
    requires wanted { table.old.next < terms.most }
    requires room { length table.old.guests.items < 512 }
    ensures alters { AltersSome C.happened (D.home_of node.now) terms result table.old table.new
        clients.old clients.new }
    ensures asks { Asks C.requests clients.old clients.new
        (Accepts table.old.next (length table.old.guests.items)) }
    ensures kept { KeepsKept (D.home_of node.now) terms.wire table.old table.new }
    ensures few { length table.new.guests.items ≤ 512 }
{
    match clients.accept(table.next) {
        AcceptedPeer::Came { random } => {
            welcome(alloc, table, terms, random, clients, node);
            None
        }
        AcceptedPeer::Nobody => None,
        AcceptedPeer::Full => crowd_out(table, clients),
    }
}

/// Accepts the client that waits, if another one is wanted. Where as many are open as may be, the
/// one that wasn't ready for the longest time is let go first.
pub(crate) fn admit<D: Desk, C: Sockets>(
    alloc: Global,
    table: &mut ClientTable,
    terms: ServingOptions,
    clients: &mut C,
    node: &D,
) -> Option<ServingEnd>
    requires few { length table.old.guests.items ≤ 512 }
    ensures alters { AltersSome C.happened (D.home_of node.now) terms result table.old table.new
        clients.old clients.new }
    ensures asks { Asks C.requests clients.old clients.new (Admits terms result table.old) }
    ensures kept { KeepsKept (D.home_of node.now) terms.wire table.old table.new }
    ensures few { length table.new.guests.items ≤ 512 }
{
    if table.next >= terms.most {
        return None;
    }
    if table.guests.len() < MOST_OPEN {
        return enter(alloc, table, terms, clients, node);
    }
    if let Some(over) = crowd_out(table, clients) {
        return Some(over);
    }
    enter(alloc, table, terms, clients, node)
}
