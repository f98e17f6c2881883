//! The competition's file at a path, as the arguments of a program name it.

ghost use Rattle.std.specs.Prelude.{◌≡◌, IfErr, IfOk, IsTrue, OnOk, option_map};
ghost use Rattle.competition_file.specs.Opening.{IsCompetition, IsGiven, IsReadOf, IsRefused};
ghost use Rattle.competition_file.specs.Opening.{is_of_reading, status_of};

use crate::file::{CompetitionFile, RenewFault};
use std::alloc::Global;
use std::fs::Files;
use std::io::{ErrorKind, Read, Write};
use std::{fmt, fs};
use wcif::FileFault;

/// How many bytes are read at most: one more than a file may have.
const MOST_READ: u64 = 67_108_865;

/// Why there is no file at a path. As text it says so in a few words.
#[derive(Drop)]
pub enum OpenFault {
    /// It cannot be opened, or a read failed.
    CannotRead,
    /// It is no JSON within the limits, or memory was refused.
    Unread(FileFault),
    /// It has no id of a competition.
    NotCompetition,
}

/// Writes why bytes are not read.
fn write_fault<W: fmt::Write>(f: &mut fmt::Formatter<W>, fault: &FileFault) -> fmt::Result {
    match fault {
        FileFault::NoMemory => f.write_str("no memory"),
        FileFault::NotJson(error) => write!(f, "no JSON: {error}"),
        FileFault::TooDeep => f.write_str("lists and objects nest more than 64 deep"),
        FileFault::TooLong | FileFault::Refused(_) => f.write_str("the file has more than 64 MiB"),
    }
}

impl fmt::Display for OpenFault {
    fn fmt<W: fmt::Write>(&self, f: &mut fmt::Formatter<W>) -> fmt::Result {
        match self {
            OpenFault::CannotRead => f.write_str("cannot be read"),
            OpenFault::Unread(fault) => write_fault(f, fault),
            OpenFault::NotCompetition => f.write_str("no competition's file"),
        }
    }
}

impl fmt::Display for RenewFault {
    fn fmt<W: fmt::Write>(&self, f: &mut fmt::Formatter<W>) -> fmt::Result {
        match self {
            RenewFault::Unread(fault) => write_fault(f, fault),
            RenewFault::OtherCompetition => f.write_str("another competition's file"),
        }
    }
}

/// The bytes of an open file: all, or one more than a competition's file may have.
fn bytes_in<F: Read + Drop>(alloc: Global, file: F) -> Result<Vec<u8>, OpenFault>
    ensures read { IfOk result (λ bytes. IsReadOf (F.remaining file) bytes.items) }
    ensures fault { IfErr result (λ fault. IsTrue (is_of_reading fault)) }
{
    let mut bytes = Vec::new(alloc);
    match file.take(MOST_READ).read_to_end(&mut bytes) {
        Ok(_) => Ok(bytes),
        Err(error) if error.kind() == ErrorKind::OutOfMemory => {
            Err(OpenFault::Unread(FileFault::NoMemory))
        }
        Err(_) => Err(OpenFault::CannotRead),
    }
}

/// The bytes of the file at a path: all, or one more than a competition's file may have.
///
/// # Errors
///
/// `CannotRead`, and `Unread` with `NoMemory`.
pub fn file_bytes<R: Files>(files: &R, alloc: Global, path: &str) -> Result<Vec<u8>, OpenFault>
    ensures read { IfOk result (λ bytes. (file : R.File) × IsReadOf (R.File.remaining file)
        bytes.items) }
    ensures fault { IfErr result (λ fault. IsTrue (is_of_reading fault)) }
{
    match fs::open(files, path) {
        Ok(file) => bytes_in(alloc, file),
        Err(_) => Err(OpenFault::CannotRead),
    }
}

/// The competition's file at a path.
fn open(rt: &HostRuntime, path: &str) -> Result<CompetitionFile, OpenFault>
    ensures { IfOk result (λ file. IsCompetition file) }
{
    let bytes = file_bytes(rt, rt.alloc(), path)?;
    match CompetitionFile::read(rt.alloc(), bytes) {
        Ok(file) if file.id().is_empty() => Err(OpenFault::NotCompetition),
        Ok(file) => Ok(file),
        Err(fault) => Err(OpenFault::Unread(fault)),
    }
}

/// The status of a program that does not get its file: 5 where memory was refused, and else 3.
fn status_of(fault: &OpenFault) -> u8
    ensures { result ≡ status_of fault.now }
{
    match fault {
        OpenFault::Unread(FileFault::NoMemory) => 5,
        _ => 3,
    }
}

/// The competition's file that the arguments of a program name, if they name one.
///
/// # Errors
///
/// The exit status, after a line that says why: 3 where the file cannot be read or is no
/// competition's, as for a file of the hall, and 5 where memory was refused.
pub fn file_given<F: Write>(
    rt: &HostRuntime,
    path: Option<&str>,
    program: &str,
    faults: &mut F,
) -> Result<Option<CompetitionFile>, u8>
    ensures given { IfOk result (IsGiven (option_map (λ path. path.now) path.entry)) }
    ensures silent { OnOk result (faults.new ≡ faults.old) }
    ensures refused { IfErr result (IsRefused (option_map (λ path. path.now) path.entry)) }
{
    let Some(path) = path else {
        return Ok(None);
    };
    match open(rt, path) {
        Ok(file) => Ok(Some(file)),
        Err(fault) => {
            let _ = writeln!(faults, "{program}: {path}: {fault}");
            Err(status_of(&fault))
        }
    }
}
