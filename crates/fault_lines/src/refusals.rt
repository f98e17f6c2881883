//! Arguments of which nothing is run: what is said of them, and the exit status.

ghost use Rattle.std.specs.Prelude.{◌≡◌, ◌≢◌};
ghost use Rattle.std.specs.IoError.{error_kind};
ghost use Rattle.fault_lines.specs.Statuses.{RunsNothing};

use crate::faults::tell_fault;
use clap::Error;
use command_line::{NOT_TEXT, PrintFault, print_parser_text};
use lines::{RunFault, write_text};
use std::alloc::Global;
use std::io;
use std::io::{ErrorKind, Write};

const BAD_NUMBER: &[u8] = b"\
error: a number must be in its range, and have no sign and no leading zeros

For more information, try '--help'.
";

/// Refuses arguments of which a number has a sign or leading zeros or is out of its range, and
/// returns the status.
pub fn tell_bad_number<F: Write>(faults: &mut F) -> u8
    ensures { result ≡ 2 }
{
    let _ = write_text(faults, BAD_NUMBER);
    2
}

/// Writes help and the version to the writer, and what is wrong with the arguments to the fault
/// stream, and returns the status.
pub fn tell_parse_error<W: Write, F: Write>(
    alloc: Global,
    error: &Error,
    writer: &mut W,
    faults: &mut F,
) -> u8
    ensures { RunsNothing result (W.contents writer.old) (W.contents writer.new) }
{
    match print_parser_text(alloc, error, writer, faults) {
        Ok(()) => 2,
        Err(PrintFault::Write) => tell_fault(faults, RunFault::Write),
        Err(PrintFault::NoMemory) => tell_fault(faults, RunFault::NoMemory),
    }
}

/// Says why the program has no arguments, and returns the status: memory ran out, or they are not
/// text.
pub fn tell_no_arguments<F: Write>(error: &io::Error, faults: &mut F) -> u8
    ensures memory { error_kind error.now ≡ ErrorKind.OutOfMemory → result ≡ 5 }
    ensures text { error_kind error.now ≢ ErrorKind.OutOfMemory → result ≡ 2 }
{
    if error.kind() == ErrorKind::OutOfMemory {
        return tell_fault(faults, RunFault::NoMemory);
    }
    let _ = write_text(faults, NOT_TEXT);
    2
}
