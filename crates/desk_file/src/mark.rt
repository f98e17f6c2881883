//! The mark of a desk's file that is in use.
//!
//! While a desk serves, its log holds what the file does not have yet, so that the file without the
//! log is an older desk's. The mark says in the file itself that it is in use, and of which log.

ghost use Rattle.std.specs.Prelude.{◌≡◌, ◌↔◌, ◌≤◌, ◌<◌, ◌%◌, ◌^◌, ◌∷◌, [], ℕ, List, length, IfOk};
ghost use Rattle.std.specs.Prelude.{IsErr, IsTrue, OnOk, slice_index};
ghost use Rattle.sqlite_disk.specs.Disk.{Follows, Holds, Mixed, Only, Torn};
ghost use Rattle.sqlite_wal.specs.{Format.be32, Reads.IsClean, Reads.OnlyReads};
ghost use Rattle.desk_file.specs.Marks.{CountsInBytes, HasFrame, IsLog, IsMarked, KeepsCountUpTo};
ghost use Rattle.desk_file.specs.Marks.{MayBegin, MayGetMark, Mixes, Stands, StandsBeside};
ghost use Rattle.desk_file.specs.Marks.{number_of, uses_of};

use crate::log_front::{FRONT_LEN, LOG_LEN, empty_log, get_be32, header_of, is_signed, put_be32};
use sqlite::Files;
use sqlite_disk::Disk;
use std::io;

/// Where the file has the number of its use: in the header's field that SQLite calls
/// `user_version`, which means nothing to SQLite. The file is in use where its first byte is not 0.
const USE: usize = 60;

/// Where the field ends.
const USE_END: usize = 64;

/// How a desk's two files are.
#[derive(Clone, Copy, Debug, PartialEq, Eq)]
pub enum FilesState {
    /// The file is not in use and has everything, or it never was in use, or is no database.
    Free,
    /// It is in use, and the log of this use is beside it.
    InUse,
    /// It is in use, and the log of this use has been emptied: the file has all.
    Emptied,
    /// It is in use, and the log of this use is not beside it.
    LogLost,
    /// It was in use and is not, and a log that has a frame is beside it: that of another file, or
    /// this file is older, since a file is taken out of use once it has everything.
    StrangeLog,
}

/// The bytes at the front of a log that is this long, where it has this many.
fn front_of<D: Disk>(log: &mut D, len: usize) -> io::Result<[u8; 41]>
    requires { IsTrue (D.Disk.is_usable log.old) }
    ensures bytes { IfOk result (λ it. IsClean D.Disk log.new
        → 41 ≤ len → Holds (D.Disk.seen log.old) 0 it) }
    ensures same { OnlyReads D.Disk log.old log.new }
{
    let mut front = [0; FRONT_LEN];
    if len < FRONT_LEN {
        return Ok(front);
    }
    log.read_at(0, &mut front)?;
    Ok(front)
}

/// Whether the log that begins with these bytes and is this long has a frame that counts.
fn has_frame(front: &[u8; 41], len: usize) -> bool
    ensures { (log : List ℕ) → length log ≡ len → (41 ≤ len → Holds log 0 front.now)
        → IsTrue result ↔ HasFrame log }
{
    if len < LOG_LEN {
        return false;
    }
    let room = len - LOG_LEN;
    let size = get_be32(front, 8) as usize;
    if room < size {
        return false;
    }
    let gate = front[40];
    let salt = front[16];
    if gate != salt {
        return false;
    }
    is_signed(&header_of(front))
}

/// How the log that begins with these bytes and is this long is beside a file in use.
fn standing_of(front: &[u8; 41], len: usize, number: u32) -> FilesState
    ensures { (log : List ℕ) → length log ≡ len → (41 ≤ len → Holds log 0 front.now)
        → StandsBeside result number log }
{
    if len < FRONT_LEN {
        return FilesState::LogLost;
    }
    let round = get_be32(front, 12);
    if round.wrapping_add(number) != get_be32(front, 16) {
        return FilesState::LogLost;
    }
    if front[0] == 0 {
        return FilesState::Emptied;
    }
    if !is_signed(&header_of(front)) {
        return FilesState::LogLost;
    }
    let gate = front[40];
    let salt = front[16];
    if gate == salt {
        return if has_frame(front, len) {
            FilesState::InUse
        } else {
            FilesState::LogLost
        };
    }
    if len < LOG_LEN {
        FilesState::Emptied
    } else {
        FilesState::InUse
    }
}

/// How a desk's two files are, as far as the disk gave back what they hold. Nothing is written.
///
/// # Errors
///
/// Where a read fails.
pub fn look<D: Disk>(files: &mut Files<D>) -> io::Result<FilesState>
    requires log { IsTrue (D.Disk.is_usable files.old.log) }
    requires db { IsTrue (D.Disk.is_usable files.old.db) }
    ensures ok { IfOk result (λ it. IsClean D.Disk files.new.log → IsClean D.Disk files.new.db
        → Stands it (D.Disk.seen files.old.log) (D.Disk.seen files.old.db)) }
    ensures log { OnlyReads D.Disk files.old.log files.new.log }
    ensures db { OnlyReads D.Disk files.old.db files.new.db }
{
    if files.db.len()? < USE_END {
        return Ok(FilesState::Free);
    }
    let mut field = [0; 4];
    files.db.read_at(USE, &mut field)?;
    let number = get_be32(&field, 0);
    let size = files.log.len()?;
    let front = front_of(&mut files.log, size)?;
    if field[0] != 0 {
        return Ok(standing_of(&front, size, number));
    }
    if number == 0 {
        return Ok(FilesState::Free);
    }
    if has_frame(&front, size) {
        return Ok(FilesState::StrangeLog);
    }
    Ok(FilesState::Free)
}

/// How many uses a number of four bytes counts.
fn count_in(field: &[u8; 4]) -> u32
    ensures count { result ≡ be32 field.now 0 % 2 ^ 24 }
    ensures bytes { (i : ℕ) → slice_index field.now i < 256 }
{
    get_be32(field, 0) % 0x100_0000
}

/// How many uses of the file were begun, as its number has it.
///
/// # Errors
///
/// Where a read fails.
pub fn uses_of<D: Disk>(db: &mut D) -> io::Result<u32>
    requires { IsTrue (D.Disk.is_usable db.old) }
    ensures ok { IfOk result (λ it. IsClean D.Disk db.new → 64 ≤ length (D.Disk.seen db.old)
        → it ≡ uses_of (D.Disk.seen db.old)) }
    ensures few { IfOk result (λ it. it < 0x100_0000) }
    ensures bytes { IfOk result (λ it. IsClean D.Disk db.new → 64 ≤ length (D.Disk.seen db.old)
        → CountsInBytes (D.Disk.seen db.old)) }
    ensures same { OnlyReads D.Disk db.old db.new }
{
    let mut field = [0; 4];
    db.read_at(USE, &mut field)?;
    Ok(count_in(&field))
}

/// The size of the file's pages, as its header has it.
fn page_size_of<D: Disk>(db: &mut D) -> io::Result<u32>
    requires { IsTrue (D.Disk.is_usable db.old) }
    ensures { OnlyReads D.Disk db.old db.new }
{
    let mut field = [0; 2];
    db.read_at(16, &mut field)?;
    let named = u16::from_be_bytes(field);
    Ok(if named == 1 { 65536 } else { u32::from(named) })
}

/// Begins the log of a use, which then has no frame.
///
/// # Errors
///
/// Where the log may have frames, which are left, and where a call of the disk fails.
fn begin_log<D: Disk>(log: &mut D, page_size: u32, number: u32) -> io::Result<()>
    requires usable { IsTrue (D.Disk.is_usable log.old) }
    requires number { 0x100_0000 ≤ number }
    ensures begun { OnOk result (IsLog number (D.Disk.seen log.new)) }
    ensures synced { OnOk result (Only (D.Disk.seen log.new) (D.Disk.may_leave log.new)) }
    ensures left { IsClean D.Disk log.new → 56 ≤ length (D.Disk.seen log.old)
        → IsErr result × (D.Disk.seen log.new ≡ D.Disk.seen log.old) }
{
    if log.len()? >= LOG_LEN {
        return Err(io::ErrorKind::AlreadyExists.into());
    }
    let mut salt = [0; 8];
    put_be32(&mut salt, 0, number);
    log.set_len(LOG_LEN)?;
    let bytes = empty_log(page_size, &salt);
    log.write_at(0, &bytes)?;
    log.sync()
}

/// Writes one byte into the file, and syncs it.
fn put_byte<D: Disk>(db: &mut D, at: usize, byte: u8) -> io::Result<()>
    requires usable { IsTrue (D.Disk.is_usable db.old) }
    requires low { at < 64 }
    ensures usable { OnOk result (IsTrue (D.Disk.is_usable db.new)) }
    ensures put { OnOk result (Holds (D.Disk.seen db.new) at (byte ∷ [])) }
    ensures synced { OnOk result (Only (D.Disk.seen db.new) (D.Disk.may_leave db.new)) }
    ensures others { Torn at 1 (D.Disk.seen db.old) (D.Disk.seen db.new) }
    ensures clean { IsClean D.Disk db.new → IsClean D.Disk db.old }
    ensures crash { Mixes D.Disk
        → Follows (Mixed at (byte ∷ [])) (D.Disk.may_leave db.old) (D.Disk.may_leave db.new) }
{
    db.write_at(at, &[byte])?;
    db.sync()
}

/// Writes the number of a use into the file, its first byte last, and each of the others alone, the
/// highest first: so no cut of the power leaves a smaller count than before.
fn write_mark<D: Disk>(db: &mut D, number: u32) -> io::Result<()>
    requires usable { IsTrue (D.Disk.is_usable db.old) }
    requires number { 0x100_0000 ≤ number }
    ensures marked { OnOk result (IsMarked (D.Disk.seen db.new)) }
    ensures number { OnOk result (number_of (D.Disk.seen db.new) ≡ number) }
    ensures synced { OnOk result (Only (D.Disk.seen db.new) (D.Disk.may_leave db.new)) }
    ensures others { Torn 60 4 (D.Disk.seen db.old) (D.Disk.seen db.new) }
    ensures clean { IsClean D.Disk db.new → IsClean D.Disk db.old }
    ensures crash { MayGetMark D.Disk number db.old db.new }
    ensures grows { KeepsCountUpTo D.Disk number db.old db.new }
{
    db.sync()?;
    put_byte(db, USE + 1, (number / 0x1_0000 % 0x100) as u8)?;
    put_byte(db, USE + 2, (number / 0x100 % 0x100) as u8)?;
    put_byte(db, USE + 3, (number % 0x100) as u8)?;
    put_byte(db, USE, (number / 0x100_0000) as u8)
}

/// Begins a use of a file that is not in use and has everything: its log is begun, and then the
/// file is marked. The number of the use begins with a byte that is not 0.
///
/// # Errors
///
/// Where a call of the disk fails, and where the log may have frames, which are left. A kill in the
/// middle of it leaves a file that is not marked, or one that is marked and has its log.
pub fn begin_use<D: Disk>(files: &mut Files<D>, number: u32) -> io::Result<()>
    requires log { IsTrue (D.Disk.is_usable files.old.log) }
    requires db { IsTrue (D.Disk.is_usable files.old.db) }
    requires number { 0x100_0000 ≤ number }
    ensures begun { OnOk result
        (Stands FilesState.InUse (D.Disk.seen files.new.log) (D.Disk.seen files.new.db)) }
    ensures number { OnOk result (number_of (D.Disk.seen files.new.db) ≡ number) }
    ensures synced { OnOk result (Only (D.Disk.seen files.new.log) (D.Disk.may_leave files.new.log)
        × Only (D.Disk.seen files.new.db) (D.Disk.may_leave files.new.db)) }
    ensures others { Torn 60 4 (D.Disk.seen files.old.db) (D.Disk.seen files.new.db) }
    ensures clean { IsClean D.Disk files.new.db → IsClean D.Disk files.old.db }
    ensures crash { MayBegin D.Disk number files.old files.new }
    ensures grows { KeepsCountUpTo D.Disk number files.old.db files.new.db }
{
    let page_size = page_size_of(&mut files.db)?;
    begin_log(&mut files.log, page_size, number)?;
    write_mark(&mut files.db, number)
}

/// Ends the use of a file that has everything: its mark is taken away.
///
/// # Errors
///
/// Where a call of the disk fails: the file is marked as it was, or is not marked.
pub fn end_use<D: Disk>(db: &mut D) -> io::Result<()>
    requires { IsTrue (D.Disk.is_usable db.old) }
    ensures usable { OnOk result (IsTrue (D.Disk.is_usable db.new)) }
    ensures free { OnOk result (¬ IsMarked (D.Disk.seen db.new)) }
    ensures synced { OnOk result (Only (D.Disk.seen db.new) (D.Disk.may_leave db.new)) }
    ensures others { Torn 60 1 (D.Disk.seen db.old) (D.Disk.seen db.new) }
    ensures clean { IsClean D.Disk db.new → IsClean D.Disk db.old }
    ensures crash { Mixes D.Disk
        → Follows (Mixed 60 (0 ∷ [])) (D.Disk.may_leave db.old) (D.Disk.may_leave db.new) }
{
    put_byte(db, USE, 0)
}
