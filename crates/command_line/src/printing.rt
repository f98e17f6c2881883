//! What a parser says of arguments that it does not accept, or that ask for help.

ghost use Rattle.std.specs.Prelude.{IfErr, OnOk};
ghost use Rattle.command_line.specs.Printing.{FailsToPrint, Prints};

use clap::Error;
use clap::error::ErrorKind;
use lines::write_text;
use std::alloc::Global;
use std::io::Write;

/// The fault line of a program with an argument that is not text.
pub const NOT_TEXT: &[u8] = b"error: the arguments are not UTF-8 text\n";

/// Why what a parser says was not printed.
#[derive(Clone, Copy, Debug, PartialEq, Eq)]
pub enum PrintFault {
    /// A write failed.
    Write,
    /// Memory ran out.
    NoMemory,
}

/// Writes help and the version to the writer, and what is wrong with the arguments to the fault
/// stream.
///
/// # Errors
///
/// - `Write` where the writer fails: a front part of the text was written.
/// - `NoMemory` where memory runs out, in the parser too: the writer keeps what it had.
pub fn print_parser_text<W: Write, F: Write>(
    alloc: Global,
    error: &Error,
    writer: &mut W,
    faults: &mut F,
) -> Result<(), PrintFault>
    ensures ok { OnOk result (Prints (W.contents writer.old) (W.contents writer.new)) }
    ensures err { IfErr result
        (λ e. FailsToPrint e (W.contents writer.old) (W.contents writer.new)) }
{
    if error.kind() == ErrorKind::OutOfMemory {
        return Err(PrintFault::NoMemory);
    }
    let Ok(text) = format!(in alloc; "{error}") else {
        return Err(PrintFault::NoMemory);
    };
    if error.use_stderr() {
        // where the line cannot be written, the status alone says what happened
        let _ = write_text(faults, text.as_bytes());
        return Ok(());
    }
    match write_text(writer, text.as_bytes()) {
        Ok(()) => Ok(()),
        Err(_) => Err(PrintFault::Write),
    }
}
