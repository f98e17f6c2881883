//! What is printed of a log, and how it ends.

ghost use Rattle.std.specs.Prelude.{◌≡◌};
ghost use Rattle.std.specs.Io.KnownBytes.{Keeps};
ghost use Rattle.desk.specs.Statuses.{EndsExport, EndsResults};

use exports::{print_filled, print_results, tell_export, tell_notes, tell_results};
use std::io::{Read, Write};

/// Prints a competition's file with the results of a log, as [`print_filled`] does, and returns the
/// exit status.
pub fn run_export<R: Read, W: Write, F: Write>(
    rt: &HostRuntime,
    file: &str,
    running: bool,
    reader: &mut R,
    writer: &mut W,
    faults: &mut F,
) -> u8
    ensures ends { EndsExport result running (R.remaining reader.old)
        (W.contents writer.old) (W.contents writer.new) }
    ensures quiet { result ≡ 0 → Keeps (F.contents faults.old) (F.contents faults.new) }
{
    match print_filled(rt, file, running, reader, writer) {
        Ok(notes) => tell_notes(faults, &notes),
        Err(fault) => tell_export(faults, file, &fault),
    }
}

/// Prints the results of a log as JSON, as [`print_results`] does, and returns the exit status.
pub fn run_results<R: Read, W: Write, F: Write>(
    rt: &HostRuntime,
    reader: &mut R,
    writer: &mut W,
    faults: &mut F,
) -> u8
    ensures ends { EndsResults result (R.remaining reader.old)
        (W.contents writer.old) (W.contents writer.new) }
    ensures quiet { result ≡ 0 → Keeps (F.contents faults.old) (F.contents faults.new) }
{
    match print_results(rt.alloc(), reader, writer) {
        Ok(()) => 0,
        Err(fault) => tell_results(faults, fault),
    }
}
