//! A competition's file printed as the lines of a desk's commands.

ghost use Rattle.std.specs.Prelude.{OnOk, IfErr, None};
ghost use Rattle.exports.specs.imports.Printing.{FailsImport, PrintsImport};

use crate::imports::fault::ImportsFault;
use crate::imports::reading::{InputFault, read_bytes};
use lines::write_text;
use std::alloc::Global;
use std::fs::File;
use std::io::{ErrorKind, Read, Write};
use wcif::{FileFault, Options, import_file, print_imported};

/// Reads a competition in the WCA Competition Interchange Format, and prints the commands that set
/// it up, one a line, as `desk enter-lines` takes them, and what is to be known of rounds that they
/// do not open, as comments.
///
/// # Errors
///
/// - `Read` where a read fails.
/// - `File` where the bytes give no commands: [`import_file`] says when.
/// - `Write` where a write fails: a front part of the lines is written.
/// - `NoMemory` where memory runs out.
///
/// Nothing is written but where a write fails.
pub fn print_import<R: Read + Drop, W: Write>(
    alloc: Global,
    reader: R,
    options: Options,
    writer: &mut W,
) -> Result<(), ImportsFault>
    ensures ok { OnOk result (PrintsImport options (R.remaining reader)
        (W.contents writer.old) (W.contents writer.new)) }
    ensures err { IfErr result (λ f. FailsImport f options (R.remaining reader)
        (W.contents writer.old) (W.contents writer.new)) }
{
    let bytes = match read_bytes(alloc, reader) {
        Ok(bytes) => bytes,
        Err(InputFault::Read) => return Err(ImportsFault::Read),
        Err(InputFault::NoMemory) => return Err(ImportsFault::NoMemory),
    };
    let made = match import_file(alloc, &bytes, options) {
        Ok(made) => made,
        Err(FileFault::NoMemory) => return Err(ImportsFault::NoMemory),
        Err(fault) => return Err(ImportsFault::File(fault)),
    };
    let Ok(text) = print_imported(alloc, &made) else {
        return Err(ImportsFault::NoMemory);
    };
    match write_text(writer, &text) {
        Ok(()) => Ok(()),
        Err(_) => Err(ImportsFault::Write),
    }
}

/// As [`print_import`], of the file at a path. What a file holds is not known, so the contract says
/// it of some bytes.
///
/// # Errors
///
/// `Read` where the file cannot be opened too; else as [`print_import`].
pub fn print_file<W: Write>(
    rt: &HostRuntime,
    path: &str,
    options: Options,
    writer: &mut W,
) -> Result<(), ImportsFault>
    ensures ok { OnOk result
        (PrintsImport options None (W.contents writer.old) (W.contents writer.new)) }
    ensures err { IfErr result (λ f.
        FailsImport f options None (W.contents writer.old) (W.contents writer.new)) }
{
    match File::open(rt, path) {
        Ok(file) => print_import(rt.alloc(), file, options, writer),
        Err(error) if error.kind() == ErrorKind::OutOfMemory => Err(ImportsFault::NoMemory),
        Err(_) => Err(ImportsFault::Read),
    }
}
