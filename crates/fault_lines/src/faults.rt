//! The faults of runs over lines, each with its line and its exit status.

ghost use Rattle.std.specs.Prelude.{◌≡◌, IfErr, OnOk};
ghost use Rattle.std.specs.Io.KnownBytes.{Keeps};
ghost use Rattle.fault_lines.specs.Statuses.{status_of_replay, status_of_run};

use lines::RunFault;
use replay::ReplayFault;
use std::io::Write;

/// The status of a fault of a run over lines: 3 for a named refusal, 4 for a device, 5 for memory.
pub fn status_of_run(fault: RunFault) -> u8
    ensures { result ≡ status_of_run fault }
{
    match fault {
        RunFault::BadCount | RunFault::InputTooLong | RunFault::BadLine { line: _ } => 3,
        RunFault::Read | RunFault::Write => 4,
        RunFault::NoMemory => 5,
    }
}

/// Writes the line of a fault of a run over lines, which needs no memory, and returns its status.
/// Where the line cannot be written, the status alone says what happened.
pub fn tell_fault<F: Write>(faults: &mut F, fault: RunFault) -> u8
    ensures { result ≡ status_of_run fault }
{
    let _ = writeln!(faults, "{fault}");
    status_of_run(fault)
}

/// Returns the status of a run over lines, and writes the line of its fault.
pub fn tell_run<F: Write>(faults: &mut F, ran: Result<(), RunFault>) -> u8
    ensures ok { OnOk ran (result ≡ 0) }
    ensures err { IfErr ran (λ e. result ≡ status_of_run e) }
    ensures quiet { result ≡ 0 → Keeps (F.contents faults.old) (F.contents faults.new) }
{
    match ran {
        Ok(()) => 0,
        Err(fault) => tell_fault(faults, fault),
    }
}

/// Returns the status of a replay, and writes the line of its fault.
pub fn tell_replay<F: Write>(faults: &mut F, ran: Result<(), ReplayFault>) -> u8
    ensures ok { OnOk ran (result ≡ 0) }
    ensures err { IfErr ran (λ e. result ≡ status_of_replay e) }
    ensures quiet { result ≡ 0 → Keeps (F.contents faults.old) (F.contents faults.new) }
{
    match ran {
        Ok(()) => 0,
        Err(ReplayFault::Lines(fault)) => tell_fault(faults, fault),
        Err(fault) => {
            let _ = writeln!(faults, "{fault}");
            3
        }
    }
}
