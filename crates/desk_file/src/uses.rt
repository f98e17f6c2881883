//! A desk's file, put into use and taken out of it.

ghost use Rattle.std.specs.Prelude.{◌≡◌, ◌+◌, ◌%◌, ◌^◌, ◌<◌, ◌≤◌, Err, IfOk, IsTrue, OnOk, length};
ghost use Rattle.sqlite.specs.Closing.{IsCopied};
ghost use Rattle.sqlite_wal.specs.Reads.{AreClean, IsClean};
ghost use Rattle.desk_file.specs.Marks.{AreApart, AreWhole, IsNextUse, KeepsCount, MayBeginNext};
ghost use Rattle.desk_file.specs.{Marks.Mixes, Marks.Tells, Uses.IsPutAway, Uses.IsPutInUse};

use crate::mark::{FilesState, begin_use, end_use, look, uses_of};
use sqlite::{Connection, FileFrom, FileStore, Files, Start};
use sqlite_disk::Disk;
use sqlite_std_file::{OpenError, open};
use std::hash::{BuildHasher, RandomState};
use std::io;
use store::fault::OpenFault;
use store::keeper::Keeper;
use store::sql::SqlKeeper;

/// Looks whether two files may be opened.
fn judge<D: Disk>(files: &mut Files<D>) -> Result<(), OpenFault>
    requires log { IsTrue (D.Disk.is_usable files.old.log) }
    requires db { IsTrue (D.Disk.is_usable files.old.db) }
    ensures ok { OnOk result (IsClean D.Disk files.new.log → IsClean D.Disk files.new.db
        → AreWhole (D.Disk.seen files.old.log) (D.Disk.seen files.old.db)) }
    ensures damaged { result ≡ Err OpenFault.Damaged → IsClean D.Disk files.new.log
        → IsClean D.Disk files.new.db
        → AreApart (D.Disk.seen files.old.log) (D.Disk.seen files.old.db) }
{
    let standing = match look(files) {
        Ok(standing) => standing,
        Err(_) => return Err(OpenFault::Device),
    };
    match standing {
        FilesState::Free => Ok(()),
        FilesState::InUse => Ok(()),
        FilesState::Emptied => Ok(()),
        FilesState::LogLost => Err(OpenFault::Damaged),
        FilesState::StrangeLog => Err(OpenFault::Damaged),
    }
}

/// Looks whether a file may be opened: it is not in use and has everything, or the log of its use
/// is beside it, as [`look`] finds it. `S` stands for what the file and its log held.
///
/// # Errors
///
/// - `Damaged` where the file is in use and the log of this use is not beside it, so that what was
///   kept since is lost, and where it was in use and a log of another use is beside it. The file is
///   as it was; an empty log is made where there is none.
/// - `Device` where the files can't be opened or read, or another program has them open.
/// - `NoMemory` where memory runs out.
pub fn check_use<S: Start>(rt: &HostRuntime, path: &str, start: S) -> Result<(), OpenFault>
    ensures ok { OnOk result (Tells ⟦<FileFrom<S> as Disk>⟧ AreWhole S.Start.log S.Start.db) }
    ensures damaged { result ≡ Err OpenFault.Damaged
        → Tells ⟦<FileFrom<S> as Disk>⟧ AreApart S.Start.log S.Start.db }
{
    match open(rt, path, start) {
        Ok(mut files) => judge(&mut files),
        Err(OpenError::OutOfMemory) => Err(OpenFault::NoMemory),
        Err(_) => Err(OpenFault::Device),
    }
}

/// The number of a use that comes after this many others. Its first byte is drawn, so that two
/// copies of a file, each of which is put into use, have different numbers.
fn number_after(uses: u32, drawn: u64) -> u32
    requires { uses + 1 < 2 ^ 24 }
    ensures in_use { 0x100_0000 ≤ result }
    ensures next { result % 2 ^ 24 ≡ uses + 1 }
{
    ((drawn % 127) as u32 + 1) * 0x100_0000 + uses + 1
}

/// Ends the use of files that have everything, where they are in use, and begins the next one. It
/// answers how many uses were begun with this one.
fn begin_next<D: Disk>(files: &mut Files<D>, drawn: u64) -> io::Result<u32>
    requires log { IsTrue (D.Disk.is_usable files.old.log) }
    requires db { IsTrue (D.Disk.is_usable files.old.db) }
    ensures next { IfOk result (IsNextUse D.Disk files.old files.new) }
    ensures clean { IsClean D.Disk files.new.db → IsClean D.Disk files.old.db }
    ensures crash { MayBeginNext D.Disk files.old files.new }
    ensures grows { Mixes D.Disk → IsClean D.Disk files.new.db
        → 64 ≤ length (D.Disk.seen files.old.db) → KeepsCount D.Disk files.old.db files.new.db }
{
    let uses = uses_of(&mut files.db)?;
    if uses >= 0xff_ffff {
        return Err(io::ErrorKind::Unsupported.into());
    }
    end_use(&mut files.db)?;
    begin_use(files, number_after(uses, drawn))?;
    Ok(uses + 1)
}

/// Closes a connection, so that its file has all.
pub fn close_whole<D: Disk + Drop>(conn: Connection<FileStore<D>>) -> Result<Files<D>, OpenFault>
    ensures log { IfOk result (λ files. IsTrue (D.Disk.is_usable files.log)) }
    ensures db { IfOk result (λ files. IsTrue (D.Disk.is_usable files.db)) }
    ensures copied { IfOk result (λ files. AreClean D.Disk files.log files.db
        → IsCopied conn files) }
{
    match conn.close_files() {
        Ok(files) => Ok(files),
        Err((_, store)) => {
            drop(store.close());
            Err(OpenFault::Device)
        }
    }
}

/// Closes the store of a desk, so that its file has all, and puts the file into its next use. It
/// answers how many uses of the file were begun with this one: a number that grows each time.
///
/// # Errors
///
/// - `Device` where the store can't be closed, the files can't be written, there are no random
///   bytes, or 16,777,215 uses were begun. The file is in use then, with its log, or it is not.
pub fn put_in_use<S: Start>(
    rt: &HostRuntime,
    keeper: SqlKeeper<FileStore<FileFrom<S>>>,
) -> Result<u32, OpenFault>
    ensures { IfOk result (IsPutInUse ⟦<FileFrom<S> as Disk>⟧
        ⟦<SqlKeeper<FileStore<FileFrom<S>>> as Keeper>⟧ keeper) }
{
    let drawn = match RandomState::new(rt) {
        Ok(state) => state.hash_one(&0u8),
        Err(_) => return Err(OpenFault::Device),
    };
    let mut files = close_whole(keeper.into_connection())?;
    match begin_next(&mut files, drawn) {
        Ok(uses) => Ok(uses),
        Err(_) => Err(OpenFault::Device),
    }
}

/// Closes the store of a desk that has served: what is in the file's log is copied into the file
/// itself, and then the file is taken out of use.
///
/// # Errors
///
/// `Device` where the device refuses that: the file is in use, and its log has everything, or it
/// has everything itself.
pub fn put_away<S: Start>(keeper: SqlKeeper<FileStore<FileFrom<S>>>) -> Result<(), OpenFault>
    ensures { OnOk result (IsPutAway ⟦<FileFrom<S> as Disk>⟧
        ⟦<SqlKeeper<FileStore<FileFrom<S>>> as Keeper>⟧ keeper) }
{
    let mut files = close_whole(keeper.into_connection())?;
    match end_use(&mut files.db) {
        Ok(()) => Ok(()),
        Err(_) => Err(OpenFault::Device),
    }
}
