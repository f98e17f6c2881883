//! The second line of a fault.

ghost use Rattle.std.specs.Prelude.{◌≡◌, OnErr, OnOk, true};
ghost use Rattle.std.specs.Io.KnownBytes.{Appends};
ghost use Rattle.lines.specs.Bytes.{AppendsPart};
ghost use Rattle.fault_hints.specs.Looking.{IsCutShort, IsExplained, line_of, serving_at};

use crate::findings::Finding;
use crate::looking::found;
use crate::matters::FaultSubject;
use desk_requests::DeskFault;
use lines::{WriteFailed, write_text};
use std::alloc::Global;
use std::io::{IsTerminal, Write};

/// Whether a fault is to have a second line: where it is asked for, and where standard error is a
/// terminal.
pub fn is_wanted(rt: &HostRuntime, explains: bool) -> bool
    ensures { explains ≡ true → result ≡ true }
{
    explains || rt.stderr().is_terminal()
}

/// Writes the line that says what was met. Where that fails, a front part of it is written, and
/// where memory is refused nothing.
fn tell<F: Write>(alloc: Global, faults: &mut F, finding: Finding<'_>) -> Result<(), WriteFailed>
    ensures ok { OnOk result
        (Appends (F.contents faults.old) (F.contents faults.new) (line_of finding.entry)) }
    ensures err { OnErr result
        (AppendsPart (F.contents faults.old) (F.contents faults.new) (line_of finding.entry)) }
{
    match format!(in alloc; "{finding}\n") {
        Ok(line) => write_text(faults, line.as_bytes()),
        Err(_) => Err(WriteFailed),
    }
}

/// Looks again after a fault of a program that asked a desk, served one or read a file, and writes
/// one line that says what was met and what to do. Where there is nothing to say, none is written.
/// The fault's own line and the exit status are not its concern.
///
/// The looking can take as long as the desk is waited for, and opens a file or a connection of its
/// own. It changes nothing in a store and enters nothing at a desk. To see whether the disk has
/// room, a file of 64 KiB is made beside the store and removed again.
///
/// # Errors
///
/// `WriteFailed` where the line can't be written, or memory is refused: a front part of it is
/// written.
pub fn explain<F: Write>(
    rt: &HostRuntime,
    faults: &mut F,
    fault: DeskFault,
    about: FaultSubject<'_>,
) -> Result<(), WriteFailed>
    ensures ok { OnOk result
        (IsExplained fault about.entry (F.contents faults.old) (F.contents faults.new)) }
    ensures err { OnErr result
        (IsCutShort fault about.entry (F.contents faults.old) (F.contents faults.new)) }
{
    match found(rt, fault, about) {
        Some(finding) => tell(rt.alloc(), faults, finding),
        None => Ok(()),
    }
}

/// As [`explain`], of a program that can't listen at an address of its own.
///
/// # Errors
///
/// As [`explain`].
pub fn explain_listening<F: Write>(
    rt: &HostRuntime,
    faults: &mut F,
    address: &str,
) -> Result<(), WriteFailed>
    ensures ok { OnOk result (IsExplained DeskFault.CannotListen (serving_at address.entry)
        (F.contents faults.old) (F.contents faults.new)) }
    ensures err { OnErr result (IsCutShort DeskFault.CannotListen (serving_at address.entry)
        (F.contents faults.old) (F.contents faults.new)) }
{
    let about = FaultSubject::Serving {
        store: address,
        address,
    };
    explain(rt, faults, DeskFault::CannotListen, about)
}
