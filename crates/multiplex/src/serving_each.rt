//! Serving many clients, side by side.

ghost use Rattle.std.specs.Prelude.{◌≡◌, ◌≤◌, ◌∷◌, [], ℕ, length, IsTrue, Option, None, true};
ghost use Rattle.polled.specs.{Telling.Tells, Requests.Asks};
ghost use Rattle.multiplex.specs.Musts.{AsksDuly, AsksUntil, EndsRound, Musts, left_at, stand};
ghost use Rattle.multiplex.specs.{Musts.WereKeptAt, Musts.wait_by, Passing.first_ticks};
ghost use Rattle.multiplex.specs.{model.Tables.AreKept, model.Tables.KeepsAll, Scenes.scene};
ghost use Rattle.multiplex.specs.model.Scenes.{Does, DoesRound};
ghost use Rattle.multiplex.specs.model.Ticks.{Desks as DesksOf, desks};
ghost use Rattle.multiplex.specs.{model.Visiting.HearsThenSettles, model.Visiting.SettlesDesks};
ghost use Rattle.multiplex.specs.Scenes.{Serves};

use crate::ends::{ServingEnd, ServingsOutcome};
use crate::links::PeerLinks;
use crate::own_frames::{OwnLinks, settle};
use crate::own_ticks::OwnTicks;
use crate::steps::{admit, let_all_go, let_go, visit, wake};
use crate::table::{ClientTable, ServingOptions};
use answers::Desk;
use polled::{Ready, Sockets};
use std::alloc::Global;
use ticking::Period;
use wire::{Difference, Version};

/// How long nothing needs to become ready at most, in milliseconds.
const LONGEST_WAIT: u64 = 1000;

/// For how long it may be waited, in milliseconds: at most a second, until the links are to be kept
/// again, and until a Tick of the desk's own is due.
pub(crate) fn wait_of<L: PeerLinks>(links: &L, own: &OwnTicks, now: u64) -> u64
    ensures { (left : Option ℕ) × L.due links.now now left
        × (result ≡ wait_by left (left_at own.now.ticker now)) }
{
    let links = links.wait(now).unwrap_or(LONGEST_WAIT).min(LONGEST_WAIT);
    match own.left(now) {
        Some(left) => left.min(links),
        None => links,
    }
}

/// Says once that another desk differs, where one does.
fn say<L: PeerLinks>(differs: Option<Difference>, said: &mut bool, links: &mut L)
    ensures handed { L.handed links.new ≡ L.handed links.old }
    ensures kept { L.kept links.new ≡ L.kept links.old }
{
    if *said {
        return;
    }
    if let Some(difference) = differs {
        *said = true;
        links.differs(difference);
    }
}

/// Keeps the links. What was pushed to them is settled by then.
fn keep_links<D: Desk, L: PeerLinks>(now: u64, links: &mut L, node: &D)
    requires settled { D.is_settled node.now }
    ensures handed { L.handed links.new ≡ L.handed links.old }
    ensures kept { Tells (L.kept links.old) (L.kept links.new) (now ∷ []) }
{
    links.keep(now);
}

/// Settles all that was changed, once what the desk has said to itself is heard, where it is to be
/// heard now, and keeps the links. False: the desk is down.
fn settle_and_keep<D: Desk, L: OwnLinks>(
    alloc: Global,
    wire: Version,
    now: u64,
    hears: bool,
    node: &mut D,
    links: &mut L,
) -> bool
    ensures settles { SettlesDesks D.Desk L.Peers wire (D.home_of node.old) result
        (desks node.old links.old) (desks node.new links.new) }
    ensures heard { HearsThenSettles D.Desk L.Peers L.waiting hears wire (D.home_of node.old) result
        (desks node.old links.old) node.new }
    ensures kept { IsTrue result → WereKeptAt now (L.kept links.new) }
    ensures settled { IsTrue result → D.is_settled node.new }
    ensures home { D.home_of node.new ≡ D.home_of node.old }
{
    if !settle(alloc, wire, hears, node, links) {
        return false;
    }
    keep_links(now, links, node);
    true
}

/// A round is over: a Tick is taken where one is due, and settled, the links are kept, what the
/// desk has said to itself is heard, and settled, the links are kept again, it is said once that
/// another desk differs, where one does, those clients are to be named in the next round whose
/// Await is to be answered now, and those are let go that weren't ready for longer than a client is
/// waited for.
///
/// So what a desk asks all desks leaves before the desk's own vote is committed, which is done
/// while the others commit theirs.
fn end_round<D: Desk, C: Sockets, L: OwnLinks>(
    alloc: Global,
    table: &mut ClientTable,
    terms: ServingOptions,
    now: u64,
    clients: &mut C,
    node: &mut D,
    links: &mut L,
) -> Option<ServingEnd>
    ensures does { DoesRound D.Desk L.Peers C.happened (D.home_of node.old) terms now result
        table.old table.new
        (scene node.old links.old clients.old) (scene node.new links.new clients.new) }
    ensures settled { result ≡ None → D.is_settled node.new }
    ensures heard { result ≡ None → (a : DesksOf D L) × HearsThenSettles D.Desk L.Peers L.waiting
        true terms.wire (D.home_of node.old) true a node.new }
    ensures ends { Asks C.requests clients.old clients.new (EndsRound terms (D.home_of node.old) now
        result (D.seen node.new) table.new (L.kept links.new)) }
    ensures kept { KeepsAll table.old table.new }
    ensures fewer { length table.new.guests.items ≤ length table.old.guests.items }
    ensures home { D.home_of node.new ≡ D.home_of node.old }
{
    table.dear.renew(table.time, now);
    table.time = now;
    let over = table.own.tick_if_due(alloc, terms.wire, now, node, links);
    if over.is_some() {
        return over;
    }
    if !settle_and_keep(alloc, terms.wire, now, false, node, links) {
        return Some(ServingEnd::Down);
    }
    if !settle_and_keep(alloc, terms.wire, now, true, node, links) {
        return Some(ServingEnd::Down);
    }
    say(table.differs, &mut table.said, links);
    wake(table, clients, node);
    let_go(table, terms.patience, clients)
}

/// Does what can be done next, and says why serving is over by that, if it is.
pub(crate) fn step<D: Desk, C: Sockets, L: OwnLinks>(
    alloc: Global,
    table: &mut ClientTable,
    terms: ServingOptions,
    clients: &mut C,
    node: &mut D,
    links: &mut L,
) -> Option<ServingEnd>
    requires kept { AreKept (D.home_of node.old) terms.wire table.old }
    requires few { length table.old.guests.items ≤ 512 }
    ensures does { Does D.Desk L.Peers C.happened (D.home_of node.old) terms result table.old
        table.new (scene node.old links.old clients.old) (scene node.new links.new clients.new) }
    ensures asks { Asks C.requests clients.old clients.new (Musts L.due L.kept terms
        (D.home_of node.old) (D.seen node.new) result table.old table.new links.old links.new) }
    ensures settled { result ≡ None → D.is_settled node.old → D.is_settled node.new }
    ensures kept { AreKept (D.home_of node.old) terms.wire table.new }
    ensures few { length table.new.guests.items ≤ 512 }
    ensures home { D.home_of node.new ≡ D.home_of node.old }
{
    match clients.ready(wait_of(links, &table.own, table.time)) {
        Ready::Waits => admit(alloc, table, terms, clients, node),
        Ready::Peer { number } => visit(alloc, table, terms, number, clients, node, links),
        Ready::Round { now } => end_round(alloc, table, terms, now, clients, node, links),
        Ready::Failed => Some(ServingEnd::Failed),
    }
}

/// Serves until it is over, and says why it is.
fn serve_rounds<D: Desk, C: Sockets, L: OwnLinks>(
    alloc: Global,
    table: &mut ClientTable,
    terms: ServingOptions,
    clients: &mut C,
    node: &mut D,
    links: &mut L,
) -> ServingEnd
    requires kept { AreKept (D.home_of node.old) terms.wire table.old }
    requires few { length table.old.guests.items ≤ 512 }
    ensures does { Does D.Desk L.Peers C.happened (D.home_of node.old) terms (Some result) table.old
        table.new (scene node.old links.old clients.old) (scene node.new links.new clients.new) }
    ensures asks { Asks C.requests clients.old clients.new (AsksUntil L.due L.kept terms
        (D.home_of node.old) result (stand table.old links.old (D.seen node.old))
        (stand table.new links.new (D.seen node.new))) }
    ensures home { D.home_of node.new ≡ D.home_of node.old }
{
    for _step in 0..u64::MAX {
        if table.guests.is_empty() && table.next >= terms.most {
            return ServingEnd::All;
        }
        if let Some(over) = step(alloc, table, terms, clients, node, links) {
            return over;
        }
    }
    ServingEnd::Tired
}

/// Serves clients side by side: at most 512 connections are open at once, and each client that is
/// ready has its turn: a write or a read of at most 4,096 bytes, and then the messages of desks are
/// served that come next, and one frame of a client. What these change is settled together before
/// the answer is sent, and what they push is written to the links once the round is over. What the
/// desk has said to itself is served then, as a connection of its own would bring it, and settled;
/// and in the turn of a client that brought messages of desks it is served at once, so that what
/// these change is settled together with it. In a
/// round one client alone is answered a sheet or entries of the log: the others that ask for such
/// are put off to the next rounds, those without a key after those that have one. It ends once
/// `most` clients came and their connections are ended, after a Stop, where the desk is down, and
/// where the system doesn't tell what is ready any more; then all connections are ended, and what a
/// client has not taken of its answers is offered to it once more, without waiting.
///
/// A connection is ended as `Connection` says, once its answers are taken; where the client ends it
/// or it breaks; where the client wasn't ready for longer than the patience; and where another one
/// comes and there is no room, which ends that of the client that wasn't ready for the longest
/// time. The links to the other desks are kept after each round.
///
/// With a period the desk gives itself Ticks: it is looked at once a round is over, and where
/// `ticking::Ticker` says that one is due, the node is given a Tick as a client's Tick gives it
/// one, and no client is answered. Where the desk is down after it, serving is over. Without a
/// period no such Tick comes.
///
/// It is waited until something is ready, for a second at most, and at most until the next Tick of
/// the desk's own is due or the links are to be kept again. A contract sees what is done at each
/// step (`served`), and what has to be asked of the clients and the links there (`asks`).
pub fn serve_each<D: Desk, C: Sockets, L: OwnLinks>(
    alloc: Global,
    terms: ServingOptions,
    period: Option<Period>,
    clients: &mut C,
    node: &mut D,
    links: &mut L,
) -> ServingsOutcome
    ensures served { Serves D.Desk L.Peers C.happened terms period result
        (scene node.old links.old clients.old) (scene node.new links.new clients.new) }
    ensures asks { Asks C.requests clients.old clients.new (AsksDuly L.due L.kept terms
        (D.home_of node.old) result.over (first_ticks (D.home_of node.old) period (D.seen node.old))
        links.old links.new (D.seen node.old)) }
    ensures home { D.home_of node.new ≡ D.home_of node.old }
{
    let Ok(mut table) = ClientTable::new(alloc, period, node) else {
        return ServingsOutcome {
            connections: 0,
            over: ServingEnd::NoMemory,
            starved: false,
        };
    };
    let over = serve_rounds(alloc, &mut table, terms, clients, node, links);
    let_all_go(&mut table, clients);
    ServingsOutcome {
        connections: table.next,
        over,
        starved: table.own.starved,
    }
}
