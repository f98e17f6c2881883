//! Why nothing is printed of a log, and what is said of it.

ghost use Rattle.std.specs.Prelude.{◌≡◌};
ghost use Rattle.std.specs.Io.KnownBytes.{Keeps};
ghost use Rattle.exports.specs.Statuses.{export_status, log_status, notes_status, results_status};

use crate::logs::LogFault;
use std::alloc::AllocError;
use std::io::Write;
use wcif_results::{ExportFault, ExportNote};

/// Why a competition's file is not printed with the results of a log.
#[derive(Drop)]
pub enum ExportsFault {
    /// The file is not there, or cannot be opened or read.
    ReadFile,
    /// The log is not read as a meet.
    Log(LogFault),
    /// The log opens no round.
    NoRound,
    /// The file does not take the results.
    File(ExportFault),
    /// Rounds still run: what is said of the file.
    Running(Vec<ExportNote>),
    /// A write failed.
    Write,
    /// Memory ran out.
    NoMemory,
}

impl From<AllocError> for ExportsFault {
    ghost use Rattle.exports.specs.declared.fault.ExportsFault.TheVariants as exports_fault;

    ghost from_gives = { λ _ fault. fault ≡ exports_fault.NoMemory };

    fn from(_: AllocError) -> ExportsFault {
        ExportsFault::NoMemory
    }
}

/// Why the results of a log are not printed as JSON.
#[derive(Clone, Copy, Debug, PartialEq, Eq)]
pub enum ResultsFault {
    /// The log is not read as a meet.
    Log(LogFault),
    /// A write failed.
    Write,
    /// Memory ran out.
    NoMemory,
}

impl From<AllocError> for ResultsFault {
    ghost use Rattle.exports.specs.declared.fault.ResultsFault.TheVariants as results_fault;

    ghost from_gives = { λ _ fault. fault ≡ results_fault.NoMemory };

    fn from(_: AllocError) -> ResultsFault {
        ResultsFault::NoMemory
    }
}

/// The status of a log that is not read: 3 where it is invalid, 4 for a device, 5 for memory.
fn log_status(fault: LogFault) -> u8
    ensures { result ≡ log_status fault }
{
    match fault {
        LogFault::TooLong | LogFault::CutOff => 3,
        LogFault::Read => 4,
        LogFault::NoMemory => 5,
    }
}

/// Writes why a log is not read.
fn tell_log<F: Write>(faults: &mut F, fault: LogFault) {
    let _ = match fault {
        LogFault::TooLong => writeln!(faults, "input too long"),
        LogFault::CutOff => writeln!(faults, "the log is cut off: its last line has no line feed"),
        LogFault::Read => writeln!(faults, "cannot read"),
        LogFault::NoMemory => writeln!(faults, "no memory"),
    };
}

/// The status of an export that failed.
fn export_status(fault: &ExportsFault) -> u8
    ensures { result ≡ export_status fault.now }
{
    match fault {
        ExportsFault::Log(fault) => log_status(*fault),
        ExportsFault::File(ExportFault::NoMemory) | ExportsFault::NoMemory => 5,
        ExportsFault::Running(_) => 1,
        ExportsFault::NoRound | ExportsFault::File(_) => 3,
        ExportsFault::ReadFile | ExportsFault::Write => 4,
    }
}

/// Writes why a file does not take the results: a line for each thing that it has no place for, and
/// one line for all else.
fn tell_file<F: Write>(faults: &mut F, fault: &ExportFault) {
    let _ = match fault {
        ExportFault::Refused(found) => {
            for one in found {
                let _ = writeln!(faults, "{one}");
            }
            Ok(())
        }
        ExportFault::NotJson { line: 0, .. } => writeln!(faults, "no JSON"),
        ExportFault::NotJson { line, column } => writeln!(
            faults,
            "no JSON: line {line} column {column}"
        ),
        ExportFault::TooDeep => writeln!(faults, "lists and objects nest more than 64 deep"),
        ExportFault::TooLong => writeln!(faults, "the file has more than 64 MiB"),
        ExportFault::NoMemory => writeln!(faults, "no memory"),
    };
}

/// Writes what is said of a file that was printed with the results of a log, a line for each thing,
/// and returns the status: 1 where something is said, else 0. Where a line cannot be written, the
/// status alone says it.
pub fn tell_notes<F: Write>(faults: &mut F, notes: &[ExportNote]) -> u8
    ensures status { result ≡ notes_status notes.now }
    ensures quiet { result ≡ 0 → Keeps (F.contents faults.old) (F.contents faults.new) }
{
    if notes.is_empty() {
        return 0;
    }
    for note in notes {
        let _ = writeln!(faults, "{note}");
    }
    1
}

/// Writes why the file at this path is not printed with the results of a log, and returns the
/// status: 1 where rounds still run, 3 where the log or the file is invalid or the one does not fit
/// the other, 4 where a device failed, 5 where memory ran out. Where a line cannot be written, the
/// status alone says what happened.
pub fn tell_export<F: Write>(faults: &mut F, path: &str, fault: &ExportsFault) -> u8
    ensures { result ≡ export_status fault.now }
{
    match fault {
        ExportsFault::ReadFile => {
            let _ = writeln!(faults, "cannot read {path}");
        }
        ExportsFault::Log(fault) => tell_log(faults, *fault),
        ExportsFault::NoRound => {
            let _ = writeln!(faults, "the log opens no round");
        }
        ExportsFault::File(fault) => tell_file(faults, fault),
        ExportsFault::Running(notes) => {
            let _ = tell_notes(faults, notes);
        }
        ExportsFault::Write => {
            let _ = writeln!(faults, "cannot write");
        }
        ExportsFault::NoMemory => {
            let _ = writeln!(faults, "no memory");
        }
    }
    export_status(fault)
}

/// As [`tell_export`], of the results as JSON.
pub fn tell_results<F: Write>(faults: &mut F, fault: ResultsFault) -> u8
    ensures { result ≡ results_status fault }
{
    match fault {
        ResultsFault::Log(fault) => {
            tell_log(faults, fault);
            log_status(fault)
        }
        ResultsFault::Write => {
            let _ = writeln!(faults, "cannot write");
            4
        }
        ResultsFault::NoMemory => {
            let _ = writeln!(faults, "no memory");
            5
        }
    }
}
