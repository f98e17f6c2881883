//! Why a stored log is not written.

ghost use Rattle.std.specs.Prelude.{◌≡◌};
ghost use Rattle.lines.specs.declared.fault.RunFault.TheVariants as run_fault;
ghost use Rattle.desk_file.specs.stored_log.StoredLogs.{IsOfFile, opening_fault};

use lines::RunFault;
use store::fault::OpenFault;

/// Why a stored log is not written, or not whole.
#[derive(Clone, Copy, Debug, PartialEq, Eq)]
pub enum StoredLogFault {
    /// What the file holds is no desk's store, whole and in its ranges.
    Damaged,
    /// The file is not there, cannot be opened or read, or another program has it open.
    Device,
    /// A write failed.
    Write,
    /// Memory ran out.
    NoMemory,
}

/// The fault of a file that was not opened as a desk's store, or not loaded.
pub fn fault_of_open(fault: OpenFault) -> StoredLogFault
    ensures same { result ≡ opening_fault fault }
    ensures of_file { IsOfFile result }
{
    match fault {
        OpenFault::WrongDesk | OpenFault::Damaged => StoredLogFault::Damaged,
        OpenFault::Device => StoredLogFault::Device,
        OpenFault::NoMemory => StoredLogFault::NoMemory,
    }
}

/// The fault of lines that were not written.
pub fn fault_of_run(fault: RunFault) -> StoredLogFault
    ensures write { fault ≡ run_fault.Write → result ≡ StoredLogFault.Write }
    ensures memory { fault ≡ run_fault.NoMemory → result ≡ StoredLogFault.NoMemory }
{
    match fault {
        RunFault::NoMemory => StoredLogFault::NoMemory,
        _ => StoredLogFault::Write,
    }
}
