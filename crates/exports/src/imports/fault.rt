//! Why a competition's file is not printed as commands, and what is said of it.

ghost use Rattle.std.specs.Prelude.{◌≡◌};
ghost use Rattle.exports.specs.imports.Printing.{status_of};

use std::alloc::AllocError;
use std::io::Write;
use wcif::FileFault;

/// Why a competition's file is not printed as commands.
#[derive(Drop)]
pub enum ImportsFault {
    /// The file is not there, or cannot be opened or read.
    Read,
    /// The file gives no commands.
    File(FileFault),
    /// A write failed.
    Write,
    /// Memory ran out.
    NoMemory,
}

impl From<AllocError> for ImportsFault {
    ghost use Rattle.exports.specs.declared.imports.fault.ImportsFault.TheVariants as imports_fault;

    ghost from_gives = { λ _ fault. fault ≡ imports_fault.NoMemory };

    fn from(_: AllocError) -> ImportsFault {
        ImportsFault::NoMemory
    }
}

/// The status of a fault: 3 for a file that gives no commands, 4 for a device, 5 for memory.
fn status_of(fault: &ImportsFault) -> u8
    ensures { result ≡ status_of fault.now }
{
    match fault {
        ImportsFault::File(FileFault::NoMemory) | ImportsFault::NoMemory => 5,
        ImportsFault::File(_) => 3,
        ImportsFault::Read | ImportsFault::Write => 4,
    }
}

/// Writes why a file gives no commands: a line for each thing that a desk cannot hold, and one line
/// for all else.
fn tell_file<F: Write>(faults: &mut F, fault: &FileFault) {
    let _ = match fault {
        FileFault::Refused(found) => {
            for one in found {
                let _ = writeln!(faults, "{one}");
            }
            Ok(())
        }
        FileFault::NotJson(error) => writeln!(faults, "no JSON: {error}"),
        FileFault::TooDeep => writeln!(faults, "lists and objects nest more than 64 deep"),
        FileFault::TooLong => writeln!(faults, "the file has more than 64 MiB"),
        FileFault::NoMemory => writeln!(faults, "no memory"),
    };
}

/// Writes why the file at this path is not printed as commands, and returns the status: 3 where it
/// gives no commands, 4 where a device failed, 5 where memory ran out. Where a line cannot be
/// written, the status alone says what happened.
pub fn tell_import<F: Write>(faults: &mut F, path: &str, fault: &ImportsFault) -> u8
    ensures { result ≡ status_of fault.now }
{
    match fault {
        ImportsFault::Read => {
            let _ = writeln!(faults, "cannot read {path}");
        }
        ImportsFault::File(fault) => tell_file(faults, fault),
        ImportsFault::Write => {
            let _ = writeln!(faults, "cannot write");
        }
        ImportsFault::NoMemory => {
            let _ = writeln!(faults, "no memory");
        }
    }
    status_of(fault)
}
