//! The journal's file.

ghost use Rattle.std.specs.Prelude.{◌≡◌, IfOk, false, true};
ghost use Rattle.table_service.specs.Disks.{CutsBack, HasLines, Keeps, OpensOver, Puts};
ghost use Rattle.table_service.specs.Openings.{HasBytes, HasNow, IsOverIn, OpensIn, journal_bytes};

use crate::disk::{Disk, SystemFile};
use outbox::{HallName, Journal, JournalFault, read_journal};
use std::alloc::Global;
use std::fs::{File, OpenOptions, TryLockError};
use std::io;
use std::io::ErrorKind;
use std::marker::Model;
use thiserror::Error;

/// The desk that is asked first.
const FIRST_DESK: u8 = 1;

/// Why a journal can't be used.
#[derive(Clone, Copy, Debug, PartialEq, Eq, Error)]
pub enum JournalFileFault {
    /// It can't be opened, read, or written.
    #[error("cannot be read and written")]
    System,
    /// Another program uses it.
    #[error("another program uses it")]
    InUse,
    /// It has more bytes than may be read.
    #[error("it is too long")]
    TooLong,
    /// It is no journal of the hall.
    #[error("{0}")]
    Unread(JournalFault),
}

impl From<JournalFault> for JournalFileFault {
    ghost use Rattle.std.specs.Prelude.{◌≡◌};
    ghost use Rattle.table_service.specs.declared.journal_file.JournalFileFault.TheVariants.{Unread};

    ghost from_gives = { λ from fault. fault ≡ Unread from };

    fn from(fault: JournalFault) -> JournalFileFault {
        JournalFileFault::Unread(fault)
    }
}

/// A fault of the system.
pub(crate) fn fault_of(error: &io::Error) -> JournalFileFault {
    match error.kind() {
        ErrorKind::OutOfMemory => JournalFileFault::Unread(JournalFault::NoMemory),
        _ => JournalFileFault::System,
    }
}

/// The file into which the lines of the journal are put. A contract sees the file, the bytes of its
/// lines, and whether something may be after them that could not be taken away.
#[derive(Drop)]
pub struct JournalFile<D: Disk> {
    disk: D,
    /// The bytes of its lines.
    length: u64,
    /// Whether it may end with a part of a line, which can't be taken away.
    is_broken: bool,
}

impl<D: Disk> Model for JournalFile<D> {
    ghost use Rattle.std.specs.Prelude.{◌≡◌, false};
    ghost use Rattle.table_service.specs.Disks.{IsSyncedIn, IsWholeIn, JournalOf, journal};

    ghost Value = { JournalOf };

    ghost view = { λ j. journal (D.holds j.disk) j.length j.is_broken };

    ghost invariant = { λ j. (j.is_broken ≡ false → IsWholeIn j.length (D.holds j.disk))
        × IsSyncedIn j.length (D.holds j.disk) };
}

/// Puts bytes after the others, so that they are there after a crash. False where that fails; then
/// a front part of them may be there.
fn put<D: Disk>(disk: &mut D, bytes: &[u8]) -> bool
    ensures { Puts result bytes.now (D.holds disk.old) (D.holds disk.new) }
{
    if !disk.append(bytes) {
        return false;
    }
    disk.sync()
}

/// Removes what follows this many bytes, so that it is not there after a crash. False where that
/// fails.
fn cut_back<D: Disk>(disk: &mut D, length: u64) -> bool
    ensures { CutsBack result length (D.holds disk.old) (D.holds disk.new) }
{
    if !disk.cut(length) {
        return false;
    }
    disk.sync()
}

impl<D: Disk> JournalFile<D> {
    /// Puts lines, with their ends, after the others, so that they are there after a crash. False
    /// where the file fails; then what is after the others is taken away, and nothing more is put
    /// there where that fails too. Also false where they would be 2^64 bytes and more.
    pub(crate) fn keep(&mut self, lines: &[u8]) -> bool
        ensures { Keeps result lines.now self.old self.new }
    {
        let Some(length) = self.length.checked_add(lines.len() as u64) else {
            return false;
        };
        if self.is_broken {
            return false;
        }
        if put(&mut self.disk, lines) {
            self.length = length;
            return true;
        }
        self.is_broken = !cut_back(&mut self.disk, self.length);
        false
    }
}

/// What is in a journal's file, and the file.
#[derive(Drop)]
pub struct OpenedJournal<D: Disk> {
    pub journal: Journal,
    pub file: JournalFile<D>,
}

/// The file at a path, which is made where there is none, and which nobody else uses.
fn opened_file(rt: &HostRuntime, path: &str) -> Result<File, JournalFileFault> {
    let opened = OpenOptions::new()
        .read(true)
        .append(true)
        .create(true)
        .open(rt, path);
    let file = match opened {
        Ok(file) => file,
        Err(error) => return Err(fault_of(&error)),
    };
    match file.try_lock() {
        Ok(()) => Ok(file),
        Err(TryLockError::WouldBlock) => Err(JournalFileFault::InUse),
        Err(TryLockError::Error(error)) => Err(fault_of(&error)),
    }
}

/// Makes sure that a file has its whole lines alone, of this many bytes, also after a crash: a part
/// of a line is taken away where it was cut. What was read is synced: a program that was killed
/// before its sync may have left lines that a crash would take. False where that fails.
fn make_whole<D: Disk>(disk: &mut D, length: u64, cut: bool) -> bool
    requires { HasLines cut length (D.holds disk.old) }
    ensures { result ≡ true → CutsBack true length (D.holds disk.old) (D.holds disk.new) }
{
    if cut {
        cut_back(disk, length)
    } else {
        disk.sync()
    }
}

/// The file of a journal over a file that has this many bytes of whole lines, after which a part of
/// a line is where it was cut.
fn opened_over<D: Disk + Drop>(
    disk: D,
    length: u64,
    cut: bool,
) -> Result<JournalFile<D>, JournalFileFault>
    requires { HasLines cut length (D.holds disk) }
    ensures { IfOk result (OpensOver length (D.holds disk)) }
{
    let mut disk = disk;
    if !make_whole(&mut disk, length, cut) {
        return Err(JournalFileFault::System);
    }
    Ok(JournalFile {
        disk,
        length,
        is_broken: false,
    })
}

/// Puts a line into a file in place of all that it has. False where that fails.
fn write_first<D: Disk>(disk: &mut D, line: &[u8]) -> bool
    ensures { result ≡ true → HasNow line.now (D.holds disk.old) (D.holds disk.new) }
{
    if !disk.cut(0) {
        return false;
    }
    put(disk, line)
}

/// The bytes of a journal's file, which has these: where no line was written to its end, it is
/// begun with the one that names the hall.
fn begun<D: Disk>(
    alloc: Global,
    disk: &mut D,
    hall: &HallName,
    bytes: Vec<u8>,
) -> Result<Vec<u8>, JournalFileFault>
    requires { HasBytes bytes.items (D.holds disk.old) }
    ensures are { IfOk result (λ all. all.items ≡ journal_bytes hall.now bytes.items) }
    ensures there { IfOk result (λ all.
        HasNow all.items (D.holds disk.old) (D.holds disk.new)) }
{
    if bytes.contains(&b'\n') {
        return Ok(bytes);
    }
    let Ok(line) = hall.first_line(alloc) else {
        return Err(JournalFileFault::Unread(JournalFault::NoMemory));
    };
    if !write_first(disk, &line) {
        return Err(JournalFileFault::System);
    }
    Ok(line)
}

/// The journal of a hall in a file that has these bytes. A line that was not written to its end is
/// taken out of the file.
fn read_over<D: Disk + Drop>(
    alloc: Global,
    disk: D,
    hall: &HallName,
    bytes: &[u8],
    now: u64,
) -> Result<OpenedJournal<D>, JournalFileFault>
    requires { HasBytes bytes.now (D.holds disk) }
    ensures { IfOk result (λ opened. IsOverIn hall.now now bytes.now (D.holds disk)
        opened.journal.outbox opened.file) }
{
    let journal = read_journal(alloc, hall, FIRST_DESK, bytes, now)?;
    let file = opened_over(disk, journal.whole as u64, journal.cut)?;
    Ok(OpenedJournal { journal, file })
}

/// Opens the journal of a hall in a file, or begins it there, and reads what it says. A line that
/// was not written to its end is taken out of the file. A journal of another hall, or of the
/// program that knows no edition 4, is refused.
fn open_in<D: Disk + Drop>(
    alloc: Global,
    disk: D,
    hall: &HallName,
    now: u64,
) -> Result<OpenedJournal<D>, JournalFileFault>
    ensures { IfOk result (λ opened. OpensIn hall.now now (D.holds disk) opened.journal.outbox
        opened.file) }
{
    let bytes = disk.read(alloc)?;
    let mut disk = disk;
    let bytes = begun(alloc, &mut disk, hall, bytes)?;
    read_over(alloc, disk, hall, &bytes, now)
}

/// Opens the journal of a hall at a path, or begins it there, as `open_in` does it.
pub fn open_journal(
    rt: &HostRuntime,
    path: &str,
    hall: &HallName,
    now: u64,
) -> Result<OpenedJournal<SystemFile>, JournalFileFault> {
    let file = opened_file(rt, path)?;
    open_in(rt.alloc(), SystemFile { file }, hall, now)
}
