//! A desk that serves.

ghost use Rattle.std.specs.Prelude.{◌≡◌, IfErr, OnOk};
ghost use Rattle.sqlite.specs.WalFiles.{image_at};
ghost use Rattle.serve.specs.{Keys.AreDoors, Serves.terms_of};
ghost use Rattle.serve.specs.Printing.{IsAllowed, Prints, PrintsAt, home_of, output};
ghost use Rattle.serve.specs.Serves.{FailsDesk, FailsKept, FailsNode, FailsThere, RunsDesk};
ghost use Rattle.serve.specs.Serves.{RunsKept, ServesNode, ServesThere, ends_by, period_of, stage};

use crate::closing::{Close, close_node};
use crate::doors::doors_of;
use crate::fault::{ServeFault, fault_of_open};
use crate::hall::{links_to, listen, send_rest};
use crate::home::home_of;
use crate::opening::open_store;
use crate::telling::{tell_first, tell_last};
use answers::Desk;
use desk_file::fault_of_load;
use hall_file::service::Service;
use multiplex::{OwnFrames, OwnLinks, ServingEnd, ServingOptions, serve_each};
use node::Node;
use polled::Sockets;
use sealed::Access;
use sqlite::{FileFrom, FileStore, Start};
use std::alloc::Global;
use std::io::Write;
use store::keeper::Keeper;
use store::sql::SqlKeeper;
use ticking::Period;

/// How long a round may last in which nothing is ready, in milliseconds: the silence of a client
/// counts from the end of the round before it was ready.
const ROUND: u64 = 1000;

/// What the end of serving says: a fault where the system says nothing of the clients any more,
/// where the desk is down, and where memory runs out.
fn told_end(over: ServingEnd) -> Result<(), ServeFault>
    ensures { result ≡ ends_by over }
{
    match over {
        ServingEnd::All | ServingEnd::Stopped => Ok(()),
        ServingEnd::Down => Err(ServeFault::Down),
        ServingEnd::Failed | ServingEnd::Tired => Err(ServeFault::CannotListen),
        ServingEnd::NoMemory => Err(ServeFault::NoMemory),
    }
}

/// How the clients of a desk are served.
fn terms_of(service: Service<'_>, doors: Access) -> ServingOptions
    ensures { result ≡ terms_of service.entry doors }
{
    let most = match service.options.connections {
        Some(connections) => u64::from(connections),
        None => u64::MAX,
    };
    ServingOptions {
        wire: service.options.wire,
        most,
        patience: u64::from(service.options.patience) * 1000 + ROUND,
        doors,
    }
}

/// The period of the desk's own Ticks: the one that is asked for. None where no period is asked
/// for, and where the number that is asked for is invalid; the program's arguments refuse such a
/// number.
fn period_of(service: Service<'_>) -> Option<Period>
    ensures { result ≡ period_of service.entry.options.tick }
{
    match service.options.tick {
        Some(milliseconds) => Period::new(milliseconds),
        None => None,
    }
}

/// A desk serves its clients, as `serve_each` does. At its beginning it prints which desk it is, of
/// how many, and how long its log is, and at its end how many clients came. With a period the desk
/// gives itself Ticks.
///
/// # Errors
///
/// - `Down` where the desk is down, and `CannotListen` where the system says nothing of the
///   clients any more: both lines are written.
/// - `Write` where a line can't be written.
/// - `NoMemory` where there is no memory for a line, or for the clients; then both lines are
///   written.
///
/// Where the first line can't be written, nobody is served.
pub fn serve_node<K: Keeper + Drop, C: Sockets, L: OwnLinks, W: Write>(
    alloc: Global,
    terms: ServingOptions,
    period: Option<Period>,
    clients: &mut C,
    node: &mut Node<K>,
    links: &mut L,
    writer: &mut W,
) -> Result<(), ServeFault>
    ensures ok { OnOk result (ServesNode K.Keeper L.Peers C.happened W.Write terms period
        (stage node.old links.old clients.old writer.old)
        (stage node.new links.new clients.new writer.new)) }
    ensures err { IfErr result (FailsNode K.Keeper L.Peers C.happened W.Write terms period
        (stage node.old links.old clients.old writer.old)
        (stage node.new links.new clients.new writer.new)) }
{
    if let Err(fault) = tell_first(alloc, writer, node.home(), node.log().len()) {
        return Err(fault);
    }
    let served = serve_each(alloc, terms, period, clients, node, links);
    if let Err(fault) = tell_last(alloc, writer, served.connections) {
        return Err(fault);
    }
    told_end(served.over)
}

/// A desk listens at its address and serves, at its start of this number.
fn serve_there<K: Keeper + Drop, W: Write>(
    rt: &HostRuntime,
    service: Service<'_>,
    doors: Access,
    start: u64,
    node: &mut Node<K>,
    writer: &mut W,
) -> Result<(), ServeFault>
    ensures ok { OnOk result (ServesThere K.Keeper W.Write service.entry doors node.old node.new
        writer.old writer.new) }
    ensures err { IfErr result (FailsThere K.Keeper W.Write service.entry doors node.old node.new
        writer.old writer.new) }
{
    let mut clients = match listen(rt, service, start) {
        Ok(clients) => clients,
        Err(fault) => return Err(fault),
    };
    let links = match links_to(rt, service, doors, &clients, start) {
        Ok(links) => links,
        Err(fault) => return Err(fault),
    };
    let mut links = OwnFrames::new(rt.alloc(), node.home().desk, links);
    let ended = serve_node(
        rt.alloc(),
        terms_of(service, doors),
        period_of(service),
        &mut clients,
        node,
        &mut links,
        writer,
    );
    send_rest(rt, &mut links.links, node.is_down());
    ended
}

/// Opens the desk that a keeper keeps, which listens at its address and serves, at its start of
/// this number. At the end the keeper is closed, unless the desk is down.
fn serve_kept<K: Keeper + Close + Drop, W: Write>(
    rt: &HostRuntime,
    service: Service<'_>,
    doors: Access,
    start: u64,
    keeper: K,
    writer: &mut W,
) -> Result<(), ServeFault>
    requires allowed { IsAllowed service }
    requires doors { AreDoors service doors }
    requires place { K.home_of keeper ≡ home_of service }
    requires settled { K.is_settled keeper }
    ensures ok { OnOk result
        (Prints service.entry (output (W.contents writer.old) (W.contents writer.new))) }
    ensures err { IfErr result
        (λ f. PrintsAt f service.entry (output (W.contents writer.old) (W.contents writer.new))) }
    ensures serves { OnOk result (RunsKept K.Keeper keeper service.entry
        (output (W.contents writer.old) (W.contents writer.new))) }
    ensures fails { IfErr result (FailsKept K.Keeper keeper service.entry
        (output (W.contents writer.old) (W.contents writer.new))) }
{
    let mut node = match Node::open(rt.alloc(), keeper) {
        Ok(node) => node,
        Err(fault) => return Err(fault_of_open(fault_of_load(fault))),
    };
    let ended = serve_there(rt, service, doors, start, &mut node, writer);
    close_node(node);
    ended
}

/// Opens a desk's file, listens at the desk's address, and serves the clients that come, side by
/// side; frames for other desks go to their addresses. With a key of the hall it asks a key of each
/// client, and speaks to the other desks under the hall's. On standard error it says when a desk
/// can't be reached, and when it is reached again, unless `quiet` is asked for.
///
/// Once it listens it prints `desk <d> of <n> len <len>`, and at its end `served <count>`. It ends
/// once it has served as many connections as were asked for, where a client asks it to stop, and by
/// a fault. Where a period is asked for, it gives itself Ticks. At its end it closes the file, so
/// that all is in the file itself and nothing in the log beside it; no clause says that, since
/// nothing is known of a file that was closed.
///
/// `S` stands for what the file held.
///
/// # Errors
///
/// - `BadCount` where there are neither three addresses nor five, then `BadDesk` where the desk is
///   none of those: nothing is opened.
/// - Where it is said whether the store is opened or made, next `SameAddresses` where two addresses
///   are equal.
/// - `NoHallKey` where a second key or open sheets are asked for without a hall's key; then
///   `KeyFile` where the file of the hall's key gives none, then where that of the second key gives
///   none, and `SameKeys` where the two keys are one: nothing is opened.
/// - Where it is said whether the store is opened or made, next `NoStore` or `StoreThere` by what
///   the file has (an empty one is as none), then `UnknownHost` where the system finds no address
///   of a desk: nothing is opened or made.
/// - `WrongDesk`, `Damaged` and `Device` where the file can't be opened as this desk's store. A
///   file that another program has open is `Device`. Where the store has to be there, a database
///   without a table is `Damaged`; where it has to be made, one with a table is `StoreThere`.
/// - `CannotListen` where the desk's address can't be had, and where the system says nothing of the
///   clients any more; then both lines are printed.
/// - `Down` where what was changed could not be settled; both lines are printed.
/// - `Write` where a line can't be written.
/// - `NoMemory` where memory runs out.
pub fn serve<S: Start, W: Write>(
    rt: &HostRuntime,
    service: Service<'_>,
    start: S,
    writer: &mut W,
) -> Result<(), ServeFault>
    ensures ok { OnOk result
        (Prints service.entry (output (W.contents writer.old) (W.contents writer.new))) }
    ensures err { IfErr result
        (λ f. PrintsAt f service.entry (output (W.contents writer.old) (W.contents writer.new))) }
    ensures serves { OnOk result
        (RunsDesk ⟦<SqlKeeper<FileStore<FileFrom<S>>> as Keeper>⟧ (image_at S.Start)
        service.entry (output (W.contents writer.old) (W.contents writer.new))) }
    ensures fails { IfErr result
        (FailsDesk ⟦<SqlKeeper<FileStore<FileFrom<S>>> as Keeper>⟧ (image_at S.Start)
        service.entry (output (W.contents writer.old) (W.contents writer.new))) }
{
    let home = match home_of(service) {
        Ok(home) => home,
        Err(fault) => return Err(fault),
    };
    let doors = match doors_of(rt, service) {
        Ok(doors) => doors,
        Err(fault) => return Err(fault),
    };
    let opened = match open_store(rt, service, home, start) {
        Ok(opened) => opened,
        Err(fault) => return Err(fault),
    };
    let number = u64::from(opened.start);
    serve_kept(rt, service, doors, number, opened.keeper, writer)
}
