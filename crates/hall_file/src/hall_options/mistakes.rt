//! What is said of wrong arguments and of what the system doesn't do, with the exit status: 2 for
//! arguments, 3 for a file that describes no hall or gives no key, 4 for an address, or where the
//! system fails, and 5 where memory is refused.

ghost use Rattle.std.specs.Prelude.{◌≡◌, ◌⊎◌};
ghost use Rattle.std.specs.IoError.{error_kind};
ghost use Rattle.hall_file.specs.hall_options.Mistakes.{arguments_status, key_status, status_of};
ghost use Rattle.hall_file.specs.hall_options.Mistakes.{system_status};

use crate::HallOpenFault;
use clap::Error;
use command_line::{NOT_TEXT, PrintFault, print_parser_text};
use keys::key_file::KeyFileFault;
use std::alloc::Global;
use std::io;
use std::io::{ErrorKind, Write};

/// What is wrong with arguments.
#[derive(Drop)]
pub enum Mistake<'a> {
    /// The number of this option has a sign or leading zeros.
    Number(&'static str),
    /// The text of this option is not a known address.
    Address(&'static str),
    /// The hall's file describes no hall.
    File(HallOpenFault<'a>),
    /// The key's file gives no key.
    Key(KeyFileFault),
    /// The address that the hall's file has for this desk is not known.
    Unknown(u8),
    /// Memory was refused.
    NoMemory,
}

/// Says why the program of this name ends, and returns the status.
pub fn tell<F: Write>(faults: &mut F, program: &str, why: &str, status: u8) -> u8
    ensures { result ≡ status }
{
    let _ = writeln!(faults, "{program}: {why}");
    status
}

/// Says why the system did not do something, and returns the status: 5 where memory was refused,
/// and else 4.
pub fn tell_system<F: Write>(faults: &mut F, program: &str, error: &io::Error, why: &str) -> u8
    ensures { result ≡ system_status (error_kind error.now) }
{
    if error.kind() == ErrorKind::OutOfMemory {
        return tell(faults, program, "no memory", 5);
    }
    tell(faults, program, why, 4)
}

/// Says why a program has no arguments, and returns the status: 5 where memory was refused, and
/// else 2, since they are not text.
pub fn tell_no_arguments<F: Write>(faults: &mut F, program: &str, error: &io::Error) -> u8
    ensures { result ≡ arguments_status (error_kind error.now) }
{
    if error.kind() == ErrorKind::OutOfMemory {
        return tell(faults, program, "no memory", 5);
    }
    let _ = faults.write_all(NOT_TEXT);
    2
}

/// Says why the key's file gives no key, and returns the status.
fn tell_key<F: Write>(faults: &mut F, program: &str, fault: KeyFileFault) -> u8
    ensures { result ≡ key_status fault }
{
    let _ = writeln!(faults, "{program}: {fault}");
    match fault {
        KeyFileFault::NoMemory => 5,
        _ => 3,
    }
}

/// Says what is wrong with arguments, and returns the status.
pub fn tell_mistake<F: Write>(faults: &mut F, program: &str, mistake: Mistake<'_>) -> u8
    ensures { result ≡ status_of mistake.entry }
{
    match mistake {
        Mistake::Number(id) => {
            let rule = "must have no sign and no leading zeros";
            let _ = writeln!(
                faults,
                "error: --{id} {rule}\n\nFor more information, try '--help'."
            );
            2
        }
        Mistake::Address(id) => {
            let _ = writeln!(faults, "{program}: --{id} is not a valid address");
            4
        }
        Mistake::File(fault) => {
            let _ = writeln!(faults, "{program}: {fault}");
            3
        }
        Mistake::Key(fault) => tell_key(faults, program, fault),
        Mistake::Unknown(number) => {
            let _ = writeln!(
                faults,
                "{program}: the address of desk {number} is not known"
            );
            4
        }
        Mistake::NoMemory => tell(faults, program, "no memory", 5),
    }
}

/// Says what the parser says of arguments, or helps, and returns the status: 2, or 4 where that
/// can't be written, or 5 where memory was refused.
pub fn tell_parse_error<W: Write, F: Write>(
    alloc: Global,
    program: &str,
    error: &Error,
    writer: &mut W,
    faults: &mut F,
) -> u8
    ensures { (result ≡ 2) ⊎ (result ≡ 4) ⊎ (result ≡ 5) }
{
    match print_parser_text(alloc, error, writer, faults) {
        Ok(()) => 2,
        Err(PrintFault::Write) => tell(faults, program, "cannot write", 4),
        Err(PrintFault::NoMemory) => tell(faults, program, "no memory", 5),
    }
}
