//! A desk's file, opened.

ghost use Rattle.std.specs.Prelude.{◌≡◌, ◌≢◌, ◌↔◌, false, Err, IfOk, IfErr, IfNone, IfSome, IsTrue};
ghost use Rattle.sqlite.specs.Files.{file_state, IsOpened};
ghost use Rattle.sqlite.specs.{Held.state, Start.FindsIn, State.HasCleanDisk, WalFiles.image_at};
ghost use Rattle.store.specs.{Kept.IsBare, Ranges.IsHome};
ghost use Rattle.desk_file.specs.Files.{KeepsFirst, KeepsHeld, KeepsThere, TellsOther, TellsTable};

use sqlite::{Alter, Connection, FileFrom, FileStore, Start};
use sqlite_trees::store::Store;
use store::fault::OpenFault;
use store::home::Home;
use store::keeper::Keeper;
use store::opening::open_fault;
use store::sql::SqlKeeper;

/// Opens the file, which is made where it is not there. Who has it open holds its lock until it
/// ends, so that no second program opens it. `S` stands for what the file and its log held.
///
/// Device: it cannot be opened, read or made, or another program has it open. Damaged: it is no
/// database, or a damaged one. NoMemory: memory was refused.
pub fn open_file<S: Start>(
    rt: &HostRuntime,
    path: &str,
    start: S,
) -> Result<Connection<FileStore<FileFrom<S>>>, OpenFault>
    ensures autocommit { IfOk result (λ conn. conn.in_transaction ≡ false) }
    ensures opened { IfOk result (λ conn. HasCleanDisk (file_state conn) → IsOpened conn) }
    ensures found { IfOk result (λ conn. HasCleanDisk (file_state conn)
        → FindsIn (image_at S.Start) (file_state conn)) }
    ensures err { IfErr result (λ fault. fault ≢ OpenFault.WrongDesk) }
{
    match Connection::open_from(rt, path, false, start) {
        Ok(conn) => Ok(conn),
        Err((error, _)) => Err(open_fault(error)),
    }
}

/// Opens the store of this desk in the file: the keeper keeps the state and the log that the file
/// and its log held. `S` stands for what they held.
///
/// WrongDesk: the file is the store of another desk or hall, or of a hall of another number of
/// desks, as the connection that was dropped says. Damaged: what it holds is no desk's store,
/// whole and in its ranges. Device and NoMemory come where they happen.
pub fn open_keeper<S: Start>(
    rt: &HostRuntime,
    home: Home,
    path: &str,
    start: S,
) -> Result<SqlKeeper<FileStore<FileFrom<S>>>, OpenFault>
    requires { IsHome home }
    ensures opened { IfOk result (KeepsHeld ⟦<SqlKeeper<FileStore<FileFrom<S>>> as Keeper>⟧
        (image_at S.Start) home) }
    ensures wrong { result ≡ Err OpenFault.WrongDesk
        → TellsOther (state ⟦<FileStore<FileFrom<S>> as Store>⟧) (image_at S.Start) home }
{
    match open_file(rt, path, start) {
        Ok(conn) => SqlKeeper::open(rt.alloc(), conn, home.hall, home.desk, home.desks),
        Err(fault) => Err(fault),
    }
}

/// Whether the database has no table, index or view at all.
fn has_nothing<S: Alter>(conn: &Connection<S>) -> bool
    ensures { IsTrue result ↔ IsBare (state S.Store conn.now) }
{
    let schema = conn.schema();
    schema.tables.is_empty() && schema.indexes.is_empty() && schema.views.is_empty()
}

/// Opens the store of this desk in the file, and makes none: the keeper keeps the state and the log
/// that stood in the desk's tables. `S` stands for what the file and its log held.
///
/// Damaged: as for [`open_keeper`], and where the database has no table at all, so that no desk's
/// store is in it. The other faults are those of [`open_keeper`].
pub fn open_keeper_there<S: Start>(
    rt: &HostRuntime,
    home: Home,
    path: &str,
    start: S,
) -> Result<SqlKeeper<FileStore<FileFrom<S>>>, OpenFault>
    requires { IsHome home }
    ensures opened { IfOk result (KeepsThere ⟦<SqlKeeper<FileStore<FileFrom<S>>> as Keeper>⟧
        (image_at S.Start) home) }
    ensures wrong { result ≡ Err OpenFault.WrongDesk
        → TellsOther (state ⟦<FileStore<FileFrom<S>> as Store>⟧) (image_at S.Start) home }
{
    let conn = match open_file(rt, path, start) {
        Ok(conn) => conn,
        Err(fault) => return Err(fault),
    };
    if has_nothing(&conn) {
        return Err(OpenFault::Damaged);
    }
    SqlKeeper::open(rt.alloc(), conn, home.hall, home.desk, home.desks)
}

/// Makes the store of this desk in the file: the keeper keeps a desk's first state, with an empty
/// log. None where the database has a table, an index or a view already. `S` stands for what the
/// file and its log held.
///
/// The faults are those of [`open_keeper`]; WrongDesk is not one of them.
pub fn make_keeper<S: Start>(
    rt: &HostRuntime,
    home: Home,
    path: &str,
    start: S,
) -> Result<Option<SqlKeeper<FileStore<FileFrom<S>>>>, OpenFault>
    requires { IsHome home }
    ensures made { IfOk result (λ made. IfSome made
        (KeepsFirst ⟦<SqlKeeper<FileStore<FileFrom<S>>> as Keeper>⟧ (image_at S.Start) home)) }
    ensures there { IfOk result (λ made. IfNone made
        (TellsTable (state ⟦<FileStore<FileFrom<S>> as Store>⟧) (image_at S.Start))) }
{
    let conn = match open_file(rt, path, start) {
        Ok(conn) => conn,
        Err(fault) => return Err(fault),
    };
    if !has_nothing(&conn) {
        return Ok(None);
    }
    match SqlKeeper::open(rt.alloc(), conn, home.hall, home.desk, home.desks) {
        Ok(keeper) => Ok(Some(keeper)),
        Err(fault) => Err(fault),
    }
}
