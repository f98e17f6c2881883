//! The key that a file has.

ghost use Rattle.std.specs.Prelude.{◌↔◌, IfOk, IfErr, IsTrue, OnOk, Some};
ghost use Rattle.keys.specs.key_file.KeyFiles.{HasKey, HasReturn, IsAlone, IsKeyAt, IsKeyText};
ghost use Rattle.keys.specs.key_file.KeyFiles.{IsOfAsking, IsSpelt, Refuses, RefusesAt};
ghost use Rattle.keys.specs.key_file.KeyFiles.{RefusesBytes, RefusesFile};

use crate::key_file::fault::KeyFileFault;
use crate::key_file::files::KeyFiles;
use crate::key_file::mode::is_open_to_others;
use crate::read_key;
use std::alloc::Global;
use std::fs::Metadata;
use std::io;
use std::io::{ErrorKind, Read};
use std::os::unix::fs::MetadataExt;

/// How many bytes are read at most: one more than a key's text with a line feed, a carriage return
/// and a line feed after it has.
const MOST_READ: u64 = 68;

/// The byte-order mark in UTF-8.
const MARK: [u8; 3] = [239, 187, 191];

/// The fault of a key's file that cannot be opened or read.
fn fault_of(error: &io::Error) -> KeyFileFault
    ensures { IsOfAsking result }
{
    match error.kind() {
        ErrorKind::NotFound => KeyFileFault::NotThere,
        ErrorKind::OutOfMemory => KeyFileFault::NoMemory,
        _ => KeyFileFault::Unreadable,
    }
}

/// Whether a key's text is before a carriage return and a line feed.
fn has_return(bytes: &[u8]) -> bool
    ensures { IsTrue result ↔ HasReturn bytes.now }
{
    match bytes.strip_suffix(b"\r\n".as_slice()) {
        Some(digits) => read_key(digits).is_some(),
        None => false,
    }
}

/// Why bytes that spell no key don't.
fn fault_in(bytes: &[u8]) -> KeyFileFault
    requires { IsKeyText bytes.now → ⊥ }
    ensures { RefusesBytes bytes.now result }
{
    if bytes.starts_with(&MARK) {
        KeyFileFault::Mark
    } else if has_return(bytes) {
        KeyFileFault::Return
    } else {
        KeyFileFault::NoKey
    }
}

/// The key that bytes spell, as [`read_key`] reads them, and that is not all zeros.
fn key_in(bytes: &[u8]) -> Result<[u8; 32], KeyFileFault>
    ensures key { IfOk result (HasKey (Some bytes.now)) }
    ensures text { OnOk result (IsKeyText bytes.now) }
    ensures refused { IfErr result (RefusesBytes bytes.now) }
{
    match read_key(bytes) {
        Some(key) if key == [0; 32] => Err(KeyFileFault::Zeros),
        Some(key) => Ok(key),
        None => Err(fault_in(bytes)),
    }
}

/// The key that all bytes of a reader spell, as [`read_key`] reads them. It is not all zeros.
///
/// # Errors
///
/// - `Mark` where they begin with a byte-order mark.
/// - `Return` where a carriage return and a line feed follow a key's text.
/// - `Zeros` where they spell a key of zeros alone.
/// - `NoKey` where they spell none, and none of this is so.
/// - `Unreadable` where a read fails.
/// - `NoMemory` where memory runs out.
pub fn key_from<R: Read + Drop>(alloc: Global, reader: R) -> Result<[u8; 32], KeyFileFault>
    ensures spelt { IfOk result IsSpelt }
    ensures key { IfOk result (HasKey (R.remaining reader)) }
    ensures refused { IfErr result (Refuses (R.remaining reader)) }
{
    let mut bytes = Vec::new(alloc);
    match reader.take(MOST_READ).read_to_end(&mut bytes) {
        Ok(_) => key_in(&bytes),
        Err(error) if error.kind() == ErrorKind::OutOfMemory => Err(KeyFileFault::NoMemory),
        Err(_) => Err(KeyFileFault::Unreadable),
    }
}

/// Refuses what is no regular file, and one that others than its owner may read, write or run.
fn refuse_open(metadata: &Metadata) -> Result<(), KeyFileFault>
    ensures alone { OnOk result (IsAlone metadata.now) }
    ensures refused { IfErr result (RefusesFile metadata.now) }
{
    if !metadata.is_file() {
        return Err(KeyFileFault::NotFile);
    }
    if is_open_to_others(metadata.mode()) {
        return Err(KeyFileFault::Open);
    }
    Ok(())
}

/// The key that the file at a path has: 64 hexadecimal digits of either case and at most one line
/// feed after them, and not zeros alone. The file must be a regular one, and its owner's alone: no
/// permission of its group or of others is set. That is asked before it is opened, since opening a
/// pipe might never end, and again of the file that was opened, before a byte of it is read.
///
/// # Errors
///
/// The first of these:
///
/// - `NotThere` where there is no file at the path.
/// - `Unreadable` where its permissions cannot be asked, or it cannot be opened.
/// - `NotFile` where it is a folder, a pipe, a socket or a device.
/// - `Open` where others than its owner may read, write or run it.
/// - `Unreadable` where a read fails.
/// - `Mark`, `Return`, `Zeros` and `NoKey` as [`key_from`] says.
///
/// `NoMemory` where memory runs out.
pub fn read_key_at<R: KeyFiles + AllocGlobal>(rt: &R, path: &str) -> Result<[u8; 32], KeyFileFault>
    ensures spelt { IfOk result IsSpelt }
    ensures key { IfOk result (IsKeyAt (R.file_at rt.now path.now)) }
    ensures refused { IfErr result (RefusesAt (R.file_at rt.now path.now)) }
{
    let named = match rt.look(path) {
        Ok(named) => named,
        Err(error) => return Err(fault_of(&error)),
    };
    refuse_open(&named)?;
    let (file, metadata) = match rt.open_to_read(path) {
        Ok(opened) => opened,
        Err(error) => return Err(fault_of(&error)),
    };
    refuse_open(&metadata)?;
    key_from(rt.alloc(), file)
}
