//! A desk's file, and the log that it holds.

ghost use Rattle.std.specs.Prelude.{◌≡◌, ◌≢◌, false, IfOk, IfErr, IfSome, IsTrue, OnOk, OnErr};
ghost use Rattle.sqlite.specs.{Files.file_state, Held.state, State.HasCleanDisk, WalFiles.image_at};
ghost use Rattle.store.specs.{Layout.no_schema, Ranges.IsHome};
ghost use Rattle.desk_file.specs.stored_log.StoredLogs.{FailsLog, IsFound, IsOfFile, IsReadFrom};
ghost use Rattle.desk_file.specs.stored_log.StoredLogs.{PrintsHeld, PrintsLog, PrintsLogPart};
ghost use Rattle.desk_file.specs.stored_log.model.{Back.IsBack, Kept.IsKeptBy, Kept.IsLogOf};

use crate::stored_log::fault::{StoredLogFault, fault_of_open, fault_of_run};
use crate::{check_use, fault_of_load, open_file};
use archive::write_log;
use learner::log::Log;
use sqlite::{Alter, Connection, Error, FileFrom, FileStore, Row, Start, Unknown};
use std::alloc::Global;
use std::fs;
use std::io::{ErrorKind, Write};
use store::home::Home;
use store::keeper::Keeper;
use store::opening::open_fault;
use store::sql::SqlKeeper;

/// Whether the file has something in it. A file that is not there is not made, and in one that has
/// nothing no tables are made.
fn has_bytes(rt: &HostRuntime, path: &str) -> Result<bool, StoredLogFault>
    ensures { IfErr result IsOfFile }
{
    match fs::metadata(rt, path) {
        Ok(data) => Ok(data.len() > 0),
        Err(error) => {
            if error.kind() == ErrorKind::OutOfMemory {
                return Err(StoredLogFault::NoMemory);
            }
            Err(StoredLogFault::Device)
        }
    }
}

/// The numbers of a row of three.
fn numbers_of(row: &Row) -> Result<(i64, i64, i64), Error> {
    let hall = row.get(0)?;
    let desk = row.get(1)?;
    let desks = row.get(2)?;
    Ok((hall, desk, desks))
}

/// The desk of these numbers, where there can be one.
fn home_of(hall: i64, desk: i64, desks: i64) -> Option<Home>
    ensures { IfSome result IsHome }
{
    let home = Home {
        hall: u32::try_from(hall).ok()?,
        desk: u8::try_from(desk).ok()?,
        desks: u8::try_from(desks).ok()?,
    };
    if home.is_valid() { Some(home) } else { None }
}

/// The row of the desk whose store the connection has. It is read inside a transaction that is
/// rolled back, so nothing is changed.
fn desk_row<S: Alter>(conn: &mut Connection<S>) -> Result<Row, Error>
    requires { conn.old.in_transaction ≡ false }
    ensures mode { conn.new.in_transaction ≡ false }
    ensures clean { HasCleanDisk (state S.Store conn.new) → HasCleanDisk (state S.Store conn.old) }
    ensures same { HasCleanDisk (state S.Store conn.new)
        → IsBack (state S.Store conn.old) (state S.Store conn.new) }
{
    let mut reading = conn.transaction();
    let row = reading.query_row("SELECT hall, number, desks FROM desk", &[]);
    reading.rollback();
    row
}

/// Whether the database has a table.
fn has_table<S: Alter>(conn: &Connection<S>) -> bool
    ensures { IsTrue result → (state S.Store conn.now).now.schema ≢ no_schema }
{
    !conn.schema().tables.is_empty()
}

/// The desk whose store the connection has. The opening of the store looks at the rest.
fn home_in<S: Alter>(conn: &mut Connection<S>) -> Result<Home, StoredLogFault>
    requires { conn.old.in_transaction ≡ false }
    ensures home { IfOk result IsHome }
    ensures err { IfErr result IsOfFile }
    ensures mode { conn.new.in_transaction ≡ false }
    ensures clean { HasCleanDisk (state S.Store conn.new) → HasCleanDisk (state S.Store conn.old) }
    ensures same { HasCleanDisk (state S.Store conn.new)
        → IsBack (state S.Store conn.old) (state S.Store conn.new) }
    ensures table { OnOk result ((state S.Store conn.new).now.schema ≢ no_schema) }
{
    let row = match desk_row(conn) {
        Ok(row) => row,
        Err(error) => return Err(fault_of_open(open_fault(error))),
    };
    let (hall, desk, desks) = match numbers_of(&row) {
        Ok(numbers) => numbers,
        Err(error) => return Err(fault_of_open(open_fault(error))),
    };
    // In a database without a table the opening would make them.
    if !has_table(conn) {
        return Err(StoredLogFault::Damaged);
    }
    match home_of(hall, desk, desks) {
        Some(home) => Ok(home),
        None => Err(StoredLogFault::Damaged),
    }
}

/// The log that a keeper keeps.
fn kept_log<K: Keeper + Drop>(alloc: Global, mut keeper: K) -> Result<Log, StoredLogFault>
    requires { K.is_settled keeper }
    ensures log { IfOk result (λ log. IsKeptBy K.Keeper keeper log.entries) }
    ensures err { IfErr result IsOfFile }
{
    match keeper.load(alloc) {
        Ok((_, log)) => Ok(log),
        Err(fault) => Err(fault_of_open(fault_of_load(fault))),
    }
}

/// The log that the store over a connection holds.
fn log_in<S: Alter + Drop>(rt: &HostRuntime, mut conn: Connection<S>) -> Result<Log, StoredLogFault>
    requires { conn.in_transaction ≡ false }
    ensures log { IfOk result
        (λ log. IsLogOf ⟦<SqlKeeper<S> as Keeper>⟧ (state S.Store conn) log.entries) }
    ensures err { IfErr result IsOfFile }
{
    let home = match home_in(&mut conn) {
        Ok(home) => home,
        Err(fault) => return Err(fault),
    };
    match SqlKeeper::open(rt.alloc(), conn, home.hall, home.desk, home.desks) {
        Ok(keeper) => kept_log(rt.alloc(), keeper),
        Err(fault) => Err(fault_of_open(fault)),
    }
}

/// Opens a file that is there, and has the log of its use beside it where it is in use. `S` stands
/// for what it and its log held.
fn open<S: Start>(
    rt: &HostRuntime,
    path: &str,
    start: S,
) -> Result<Connection<FileStore<FileFrom<S>>>, StoredLogFault>
    ensures autocommit { IfOk result (λ conn. conn.in_transaction ≡ false) }
    ensures found { IfOk result (λ conn. HasCleanDisk (file_state conn)
        → IsFound (image_at S.Start) (file_state conn).committed) }
    ensures err { IfErr result IsOfFile }
{
    match has_bytes(rt, path) {
        Ok(true) => {}
        Ok(false) => return Err(StoredLogFault::Damaged),
        Err(fault) => return Err(fault),
    }
    if let Err(fault) = check_use(rt, path, Unknown) {
        return Err(fault_of_open(fault));
    }
    match open_file(rt, path, start) {
        Ok(conn) => Ok(conn),
        Err(fault) => Err(fault_of_open(fault)),
    }
}

/// The log that the file held.
fn log_of<S: Start>(rt: &HostRuntime, path: &str, start: S) -> Result<Log, StoredLogFault>
    ensures log { let k = ⟦<SqlKeeper<FileStore<FileFrom<S>>> as Keeper>⟧ in
        IfOk result (λ log. IsReadFrom k.is_honest (image_at S.Start) log.entries) }
    ensures err { IfErr result IsOfFile }
{
    match open(rt, path, start) {
        Ok(conn) => log_in(rt, conn),
        Err(fault) => Err(fault),
    }
}

/// Writes the log that the file of a stopped desk holds, as [`write_log`] does. The file has to be
/// there; which desk it belongs to is read from it.
///
/// `S` stands for what the file and its log held.
///
/// # Errors
///
/// - `Damaged` where the file holds no desk's store, or is in use without its log beside it, and
///   `Device` where it is not there or can't be opened or read: nothing is written.
/// - `Write` where a write fails: a front part of the lines is written.
/// - `NoMemory` where memory runs out: nothing is written, or a front part of the lines.
pub fn write_stored_log<S: Start, W: Write>(
    rt: &HostRuntime,
    path: &str,
    start: S,
    writer: &mut W,
) -> Result<(), StoredLogFault>
    ensures ok { OnOk result (PrintsLog (W.contents writer.old) (W.contents writer.new)) }
    ensures err { OnErr result (PrintsLogPart (W.contents writer.old) (W.contents writer.new)) }
    ensures prints { let k = ⟦<SqlKeeper<FileStore<FileFrom<S>>> as Keeper>⟧ in
        OnOk result (PrintsHeld k.is_honest (image_at S.Start) (W.contents writer.old)
        (W.contents writer.new)) }
    ensures fails { let k = ⟦<SqlKeeper<FileStore<FileFrom<S>>> as Keeper>⟧ in
        IfErr result (λ f. FailsLog f k.is_honest (image_at S.Start) (W.contents writer.old)
        (W.contents writer.new)) }
{
    let log = match log_of(rt, path, start) {
        Ok(log) => log,
        Err(fault) => return Err(fault),
    };
    match write_log(rt.alloc(), &log, writer) {
        Ok(()) => Ok(()),
        Err(fault) => Err(fault_of_run(fault)),
    }
}
