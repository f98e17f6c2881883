//! A desk's file, looked at again.

ghost use Rattle.std.specs.Prelude.{IfOk, IfSome};
ghost use Rattle.fault_hints.specs.Looking.{IsOfDamage, IsOfDevice, IsOfFile, IsOfReading};
ghost use Rattle.fault_hints.specs.model.Files.{IsOfOpening, IsOfPath, IsOfRoom};

use crate::findings::{FileFinding, Finding};
use crate::told::{of_beginning, of_opening};
use sqlite_std_file::{OpenError, Unknown, open};
use std::alloc::AllocError;
use std::fs::OpenOptions;
use std::io::{ErrorKind, Read, Write};
use std::path::Path;
use std::rt::Files;
use std::{fs, io};

/// The path of what is beside a file under its name with an ending.
fn beside<R: AllocGlobal>(rt: &R, path: &str, ending: &str) -> Result<String, AllocError> {
    format!(in rt.alloc(); "{path}{ending}")
}

/// Whether the folder is there that a path names a file in.
fn has_folder<R: Files>(rt: &R, path: &str) -> bool {
    match Path::new(path).parent() {
        Some(folder) => folder.as_str().is_empty() || folder.is_dir(rt),
        None => false,
    }
}

/// How many bytes the file has, and none where it is not there.
fn length_of<R: Files>(rt: &R, path: &str) -> u64 {
    match fs::metadata(rt, path) {
        Ok(data) => data.len(),
        Err(_) => 0,
    }
}

/// What is at a path in place of a file.
fn no_file<R: Files>(rt: &R, path: &str) -> Option<FileFinding>
    ensures { IfSome result IsOfPath }
{
    match fs::metadata(rt, path) {
        Ok(data) if data.is_dir() => Some(FileFinding::IsFolder),
        Ok(_) => None,
        Err(error) if error.kind() == ErrorKind::NotFound => {
            if has_folder(rt, path) {
                Some(FileFinding::NotThere)
            } else {
                Some(FileFinding::NoFolder)
            }
        }
        Err(error) => of_opening(error.kind()),
    }
}

/// Makes a file and fills it with 64 KiB, and removes it again.
fn fill<R: Files>(rt: &R, path: &str) -> io::Result<()> {
    let mut file = OpenOptions::new()
        .write(true)
        .create_new(true)
        .open(rt, path)?;
    let mut filled = Ok(());
    for _part in 0..16 {
        if filled.is_ok() {
            filled = file.write_all(&[0; 4096]);
        }
    }
    fs::remove_file(rt, path)?;
    filled
}

/// Whether there is room beside a file, and what was met if there is none.
fn no_room<R: Files + AllocGlobal>(rt: &R, path: &str) -> Option<FileFinding>
    ensures { IfSome result IsOfRoom }
{
    let Ok(room) = beside(rt, path, "-room") else {
        return None;
    };
    match fill(rt, room.as_str()) {
        Ok(()) => None,
        Err(error) => match of_opening(error.kind()) {
            Some(FileFinding::NotAllowed) => Some(FileFinding::FolderClosed),
            found => found,
        },
    }
}

/// What was met of a file beside which something is to be written, where there is no room.
pub fn room_beside<'a>(rt: &HostRuntime, path: &'a str) -> Option<Finding<'a>>
    ensures { IsOfFile path.entry IsOfRoom result }
{
    match no_room(rt, path) {
        Some(what) => Some(Finding::File { path, what }),
        None => None,
    }
}

/// Whether this user may read and write a file.
fn is_allowed<R: Files>(rt: &R, path: &str) -> bool {
    match OpenOptions::new().read(true).write(true).open(rt, path) {
        Ok(_) => true,
        Err(error) => error.kind() != ErrorKind::PermissionDenied,
    }
}

/// What was met of a file that is there, opened again as a desk opens it.
fn opened_again(rt: &HostRuntime, path: &str) -> Option<FileFinding>
    ensures { IfSome result IsOfOpening }
{
    match open(rt, path, Unknown) {
        Ok(_) => Some(FileFinding::OpensNow),
        Err(OpenError::Busy) => Some(FileFinding::HeldOpen),
        Err(OpenError::HotJournal) => Some(FileFinding::HasJournal),
        Err(OpenError::OutOfMemory) => None,
        Err(OpenError::Io(error)) => match of_opening(error.kind()) {
            Some(FileFinding::NotAllowed) if is_allowed(rt, path) => {
                Some(FileFinding::FolderClosed)
            }
            // a file is there, and cannot be opened as one
            Some(FileFinding::NoFolder) => Some(FileFinding::NotPlain),
            found => found,
        },
    }
}

/// What was met of a file that a desk was to be served from, and that could not be opened, read or
/// written.
pub(crate) fn of_device(rt: &HostRuntime, path: &str) -> Option<FileFinding>
    ensures { IfSome result IsOfDevice }
{
    match no_file(rt, path) {
        // it was to be made
        Some(FileFinding::NotThere) => no_room(rt, path),
        Some(found) => Some(found),
        None => match opened_again(rt, path) {
            Some(FileFinding::OpensNow) => match no_room(rt, path) {
                Some(found) => Some(found),
                None => Some(FileFinding::OpensNow),
            },
            found => found,
        },
    }
}

/// What was met of a file whose log was to be read, and that could not be opened or read.
pub(crate) fn of_reading(rt: &HostRuntime, path: &str) -> Option<FileFinding>
    ensures { IfSome result IsOfReading }
{
    match no_file(rt, path) {
        Some(found) => Some(found),
        None => match opened_again(rt, path) {
            Some(FileFinding::HeldOpen) => Some(FileFinding::LogHeldOpen),
            found => found,
        },
    }
}

/// What the first bytes of a file say, 16 or all that it has.
fn beginning<R: Files>(rt: &R, path: &str) -> io::Result<Option<FileFinding>>
    ensures { IfOk result (λ what. IfSome what IsOfDamage) }
{
    let mut bytes = [0; 16];
    let mut file = fs::open(rt, path)?;
    let count = file.read(&mut bytes)?;
    Ok(of_beginning(&bytes[..count]))
}

/// What was met of a file that is no desk's store.
pub(crate) fn of_damage<R: Files + AllocGlobal>(rt: &R, path: &str) -> Option<FileFinding>
    ensures { IfSome result IsOfDamage }
{
    match beginning(rt, path) {
        Ok(Some(found)) => return Some(found),
        Ok(None) => {}
        Err(error) => return of_opening(error.kind()),
    }
    let Ok(log) = beside(rt, path, "-wal") else {
        return None;
    };
    // A file of one page holds no table: what a desk has that never ended by Stop is in its log.
    if length_of(rt, path) <= 4096 || length_of(rt, log.as_str()) == 0 {
        Some(FileFinding::LogMissing)
    } else {
        Some(FileFinding::NotWhole)
    }
}
