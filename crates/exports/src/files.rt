//! A competition's file printed with the results of a log.

ghost use Rattle.std.specs.Prelude.{IfErr, IfOk, None};
ghost use Rattle.exports.specs.Files.{FailsExport, IsFilledLine, IsUnfilled, PrintsExport};

use crate::fault::ExportsFault;
use crate::imports::{InputFault, read_bytes};
use crate::logs::{opens_any, read_log};
use lines::write_text;
use std::alloc::Global;
use std::fs::File;
use std::io::{ErrorKind, Read, Write};
use wcif_results::{ExportFault, ExportNote, ExportedFile, NamedMeet, any_runs, export};

/// The file with the results of a meet, and a line feed. Rounds that still run are in it only where
/// `running` says so.
fn filled_line(
    alloc: Global,
    bytes: &[u8],
    meet: &NamedMeet,
    running: bool,
) -> Result<ExportedFile, ExportsFault>
    ensures ok { IfOk result (λ made. IsFilledLine running meet.now.accepted bytes.now
        made.text.items made.notes.items) }
    ensures err { IfErr result (IsUnfilled running meet.now.accepted bytes.now) }
{
    if !opens_any(meet.meet()) {
        return Err(ExportsFault::NoRound);
    }
    let ExportedFile { text, notes } = match export(alloc, bytes, meet) {
        Ok(made) => made,
        Err(ExportFault::NoMemory) => return Err(ExportsFault::NoMemory),
        Err(fault) => return Err(ExportsFault::File(fault)),
    };
    let runs = any_runs(&notes);
    if runs && !running {
        return Err(ExportsFault::Running(notes));
    }
    let mut line = text;
    line.extend_from_slice(b"\n")?;
    Ok(ExportedFile { text: line, notes })
}

/// Reads a competition's file in the WCA Competition Interchange Format and a desk's log, and
/// prints the file with the results of each round that the log opens, and a line feed: all else of
/// it stays as [`export`] says. Returns what is to be said of it.
///
/// # Errors
///
/// - `ReadFile` where a read of the file fails; the log is not read then.
/// - `Log` where the log is not read as a meet: [`read_log`] says when.
/// - `NoRound` where the log opens no round.
/// - `File` where the file does not take the meet's results: [`export`] says when.
/// - `Running` where a round still runs, unless `running` says that this is right.
/// - `Write` where a write fails: a front part of the text is written.
/// - `NoMemory` where memory runs out.
///
/// Nothing is written but where a write fails.
pub fn print_export<R: Read + Drop, L: Read, W: Write>(
    alloc: Global,
    file: R,
    running: bool,
    log: &mut L,
    writer: &mut W,
) -> Result<Vec<ExportNote>, ExportsFault>
    ensures ok { IfOk result (λ notes. PrintsExport running notes.items (R.remaining file)
        (L.remaining log.old) (W.contents writer.old) (W.contents writer.new)) }
    ensures err { IfErr result (λ f. FailsExport f running (R.remaining file)
        (L.remaining log.old) (W.contents writer.old) (W.contents writer.new)) }
{
    let bytes = match read_bytes(alloc, file) {
        Ok(bytes) => bytes,
        Err(InputFault::Read) => return Err(ExportsFault::ReadFile),
        Err(InputFault::NoMemory) => return Err(ExportsFault::NoMemory),
    };
    let meet = match read_log(alloc, log) {
        Ok(meet) => meet,
        Err(fault) => return Err(ExportsFault::Log(fault)),
    };
    let made = filled_line(alloc, &bytes, &meet, running)?;
    let ExportedFile { text, notes } = made;
    match write_text(writer, &text) {
        Ok(()) => Ok(notes),
        Err(_) => Err(ExportsFault::Write),
    }
}

/// As [`print_export`], of the file at a path. What a file holds is not known, so the contract says
/// it of some bytes.
///
/// # Errors
///
/// `ReadFile` where the file cannot be opened too; else as [`print_export`].
pub fn print_filled<L: Read, W: Write>(
    rt: &HostRuntime,
    path: &str,
    running: bool,
    log: &mut L,
    writer: &mut W,
) -> Result<Vec<ExportNote>, ExportsFault>
    ensures ok { IfOk result (λ notes. PrintsExport running notes.items None
        (L.remaining log.old) (W.contents writer.old) (W.contents writer.new)) }
    ensures err { IfErr result (λ f. FailsExport f running None (L.remaining log.old)
        (W.contents writer.old) (W.contents writer.new)) }
{
    match File::open(rt, path) {
        Ok(file) => print_export(rt.alloc(), file, running, log, writer),
        Err(error) if error.kind() == ErrorKind::OutOfMemory => Err(ExportsFault::NoMemory),
        Err(_) => Err(ExportsFault::ReadFile),
    }
}
