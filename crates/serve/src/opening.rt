//! The store of a desk that is to serve: opened or made, as it is asked for.

ghost use Rattle.std.specs.Prelude.{◌≡◌, [], IfErr, IfOk, IsTrue};
ghost use Rattle.acceptor.specs.Storing.{first_stored};
ghost use Rattle.sqlite.specs.{Recovery.Image, WalFiles.image_at};
ghost use Rattle.store.specs.{Ranges.IsHome, declared.home.Home.Home as Place};
ghost use Rattle.serve.specs.Files.{IsUsedFor, KeepsFor, opening_of};
ghost use Rattle.serve.specs.Printing.{IsOfOpening, IsOfStore, refusal_of};

use crate::fault::{ServeFault, fault_of_open};
use crate::hall::{listen, unknown_in};
use acceptor::stored::Stored;
use desk_file::{check_use, fault_of_load, make_file, open_keeper, open_keeper_there, put_in_use};
use hall_file::service::{Service, StoreOrigin};
use learner::log::Log;
use sqlite::{FileFrom, FileStore, Start, Unknown};
use sqlite_disk::Disk;
use std::alloc::Global;
use std::fs;
use std::io::ErrorKind;
use std::rt::Files;
use store::home::Home;
use store::keeper::Keeper;
use store::sql::SqlKeeper;

/// The store of a desk that was opened.
#[derive(Drop)]
pub struct OpenedStore<K> {
    /// What keeps the desk's state and its log.
    pub keeper: K,
    /// A number that grows each time that the file is opened to serve.
    pub start: u32,
}

/// Why a file is not opened in which a store is, or none.
fn refusal_of(making: StoreOrigin, there: bool) -> Option<ServeFault>
    ensures { result ≡ refusal_of making there }
{
    match making {
        StoreOrigin::AsNeeded => None,
        StoreOrigin::Open => (!there).then_some(ServeFault::NoStore),
        StoreOrigin::New => there.then_some(ServeFault::StoreThere),
    }
}

/// Whether the file is there and has something in it.
pub fn has_bytes<R: Files>(rt: &R, path: &str) -> Result<bool, ServeFault>
    ensures { IfErr result IsOfStore }
{
    match fs::metadata(rt, path) {
        Ok(data) => Ok(data.len() > 0),
        Err(error) => match error.kind() {
            ErrorKind::NotFound => Ok(false),
            ErrorKind::OutOfMemory => Err(ServeFault::NoMemory),
            _ => Err(ServeFault::Device),
        },
    }
}

/// Looks whether the store that is to be opened is there, or that no store is there where one is to
/// be made. Then it looks whether each desk's address can be found, and, before a store is made,
/// whether the desk's own address can be had. Where a store is made as it is needed, nothing is
/// looked at.
fn may_open(rt: &HostRuntime, service: Service<'_>) -> Result<(), ServeFault>
    ensures { IfErr result (λ f. IsOfOpening f service.entry) }
{
    if service.options.making == StoreOrigin::AsNeeded {
        return Ok(());
    }
    let there = match has_bytes(rt, service.options.store) {
        Ok(there) => there,
        Err(fault) => return Err(fault),
    };
    if let Some(fault) = refusal_of(service.options.making, there) {
        return Err(fault);
    }
    if let Some(desk) = unknown_in(rt, service.addresses) {
        return Err(ServeFault::UnknownHost { desk });
    }
    match service.options.making {
        StoreOrigin::AsNeeded | StoreOrigin::Open => Ok(()),
        StoreOrigin::New => match listen(rt, service, 0) {
            Ok(_) => Ok(()),
            Err(fault) => Err(fault),
        },
    }
}

/// Makes the file of a desk where one has to be made.
fn make_as_asked(rt: &HostRuntime, service: Service<'_>, home: Home) -> Result<(), ServeFault>
    requires { IsHome home }
    ensures { IfErr result (λ f. IsOfOpening f service.entry) }
{
    match service.options.making {
        StoreOrigin::AsNeeded | StoreOrigin::Open => Ok(()),
        StoreOrigin::New => match make_file(rt, home, service.options.store, Unknown) {
            Ok(()) => Ok(()),
            Err(fault) => Err(fault_of_open(fault)),
        },
    }
}

/// Opens a file as this desk's store, of whatever it held: where a store is made as it is needed,
/// in a file without one too.
fn open_as_asked<S: Start>(
    rt: &HostRuntime,
    service: Service<'_>,
    home: Home,
    start: S,
) -> Result<SqlKeeper<FileStore<FileFrom<S>>>, ServeFault>
    requires { IsHome home }
    ensures opened { IfOk result (KeepsFor ⟦<SqlKeeper<FileStore<FileFrom<S>>> as Keeper>⟧
        (opening_of service.entry.options.making) (image_at S.Start) home) }
    ensures err { IfErr result (λ f. IsOfOpening f service.entry) }
{
    let path = service.options.store;
    match service.options.making {
        StoreOrigin::AsNeeded => match open_keeper(rt, home, path, start) {
            Ok(keeper) => Ok(keeper),
            Err(fault) => Err(fault_of_open(fault)),
        },
        StoreOrigin::Open => match open_keeper_there(rt, home, path, start) {
            Ok(keeper) => Ok(keeper),
            Err(fault) => Err(fault_of_open(fault)),
        },
        StoreOrigin::New => match open_keeper_there(rt, home, path, start) {
            Ok(keeper) => Ok(keeper),
            Err(fault) => Err(fault_of_open(fault)),
        },
    }
}

/// Opens the file of a desk as its store, closes it with all that it has, and puts it into its next
/// use. So a file that is no desk's store is never marked.
fn put_file_in_use<S: Start>(
    rt: &HostRuntime,
    service: Service<'_>,
    home: Home,
    start: S,
) -> Result<u32, ServeFault>
    requires { IsHome home }
    ensures used { IfOk result (IsUsedFor ⟦<FileFrom<S> as Disk>⟧
        ⟦<SqlKeeper<FileStore<FileFrom<S>>> as Keeper>⟧ (opening_of service.entry.options.making)
        (image_at S.Start) home) }
    ensures err { IfErr result (λ f. IsOfOpening f service.entry) }
{
    if let Err(fault) = check_use(rt, service.options.store, Unknown) {
        return Err(fault_of_open(fault));
    }
    let keeper = open_as_asked(rt, service, home, start)?;
    match put_in_use(rt, keeper) {
        Ok(start) => Ok(start),
        Err(fault) => Err(fault_of_open(fault)),
    }
}

/// Whether they are a desk's first state and an empty log.
fn is_new(stored: &Stored, log: &Log) -> bool
    ensures { IsTrue result → (stored.now ≡ first_stored) × (log.now.entries ≡ []) }
{
    *stored == Stored::new() && log.len() == 0
}

/// The keeper of a store that was made, where it keeps a desk's first state with an empty log.
fn first_of<K: Keeper + Drop>(
    alloc: Global,
    service: Service<'_>,
    mut keeper: K,
) -> Result<K, ServeFault>
    requires new { service.options.making ≡ StoreOrigin.New }
    requires settled { K.is_settled keeper }
    ensures first { IfOk result (λ it. (files : Image) (home : Place)
        → KeepsFor K.Keeper StoreOrigin.Open files home keeper
        → KeepsFor K.Keeper StoreOrigin.New files home it) }
    ensures err { IfErr result (λ f. IsOfOpening f service.entry) }
{
    match keeper.load(alloc) {
        Ok((stored, log)) => {
            if !is_new(&stored, &log) {
                return Err(ServeFault::StoreThere);
            }
            Ok(keeper)
        }
        Err(fault) => Err(fault_of_open(fault_of_load(fault))),
    }
}

/// The keeper of a store that was opened, where it keeps what was asked for.
fn as_asked<K: Keeper + Drop>(
    alloc: Global,
    service: Service<'_>,
    keeper: K,
) -> Result<K, ServeFault>
    requires settled { K.is_settled keeper }
    ensures kept { IfOk result (λ it. (files : Image) (home : Place)
        → KeepsFor K.Keeper (opening_of service.entry.options.making) files home keeper
        → KeepsFor K.Keeper service.entry.options.making files home it) }
    ensures err { IfErr result (λ f. IsOfOpening f service.entry) }
{
    match service.options.making {
        StoreOrigin::AsNeeded => Ok(keeper),
        StoreOrigin::Open => Ok(keeper),
        StoreOrigin::New => first_of(alloc, service, keeper),
    }
}

/// Opens the store of a desk, or makes it, as its service says, and puts its file into its next use
/// before anything is kept in it. `S` stands for what the file and its log held once it was in use.
///
/// # Errors
///
/// - `NoStore` where one has to be there, and the file is not there or has nothing in it, and
///   `StoreThere` where one has to be made, and the file has something in it: nothing is opened.
/// - `UnknownHost` where the store is to be opened or made as a hall's file says, and no address is
///   found of a desk: nothing is opened or made.
/// - `CannotListen` where one has to be made, and the desk's address can't be had: none is made.
/// - `Damaged` where one has to be made, and the log of a file is there that is lost: none is made.
/// - `Damaged` where the file is in use, and the log of this use is not beside it: it is the file
///   of an older desk then. Nothing is opened.
/// - `Damaged` also where one has to be there, and the database has no table: none is made. So it
///   is with a file of one page whose log was lost.
/// - `WrongDesk`, `Damaged`, `Device` and `NoMemory` as for [`open_keeper`].
/// - `StoreThere` also where one has to be made, and it has more than a first state once it is
///   opened.
pub fn open_store<S: Start>(
    rt: &HostRuntime,
    service: Service<'_>,
    home: Home,
    start: S,
) -> Result<OpenedStore<SqlKeeper<FileStore<FileFrom<S>>>>, ServeFault>
    requires { IsHome home }
    ensures opened { IfOk result (λ it. KeepsFor ⟦<SqlKeeper<FileStore<FileFrom<S>>> as Keeper>⟧
        service.entry.options.making (image_at S.Start) home it.keeper) }
    ensures used { IfOk result (λ it. IsUsedFor ⟦<FileFrom<Unknown> as Disk>⟧
        ⟦<SqlKeeper<FileStore<FileFrom<Unknown>>> as Keeper>⟧
        (opening_of service.entry.options.making) (image_at ⟦<Unknown as Start>⟧) home it.start) }
    ensures err { IfErr result (λ f. IsOfOpening f service.entry) }
{
    may_open(rt, service)?;
    make_as_asked(rt, service, home)?;
    let number = put_file_in_use(rt, service, home, Unknown)?;
    let opened = open_as_asked(rt, service, home, start)?;
    let keeper = as_asked(rt.alloc(), service, opened)?;
    Ok(OpenedStore {
        keeper,
        start: number,
    })
}
