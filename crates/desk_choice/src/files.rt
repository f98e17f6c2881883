//! The file of a hall, and what is said of one that is invalid.

ghost use Rattle.std.specs.Prelude.{ℕ, List, IfErr, IfOk, OnOk};
ghost use Rattle.std.specs.Io.KnownBytes.{Keeps};
ghost use Rattle.hall_file.specs.Halls.{Says};
ghost use Rattle.desk_choice.specs.Files.{IsOfFile};

use desk_requests::DeskFault;
use hall_file::{HallFault, HallFile, HallOpenFault, read_hall_at};
use lines::RunFault;
use std::io::Write;
use std::rt::Files;

/// The hall that the file at a path describes. If it describes no hall, or cannot be read, a line
/// on the fault stream names the path and says why.
///
/// # Errors
///
/// `BadHallFile` where the line was written; `Run` with `NoMemory` where memory ran out.
pub fn hall_of_file<R: Files + AllocGlobal, F: Write>(
    rt: &R,
    path: &str,
    faults: &mut F,
) -> Result<HallFile, DeskFault>
    ensures ok { IfOk result (λ file. (bytes : List ℕ) × Says bytes file) }
    ensures quiet { OnOk result (Keeps (F.contents faults.old) (F.contents faults.new)) }
    ensures err { IfErr result IsOfFile }
{
    match read_hall_at(rt, path) {
        Ok(file) => Ok(file),
        Err(
            HallOpenFault::Refused {
                path: _,
                fault: HallFault::NoMemory,
            },
        ) => Err(DeskFault::Run(RunFault::NoMemory)),
        Err(fault) => {
            // where the line cannot be written, the status alone says what happened
            let _ = writeln!(faults, "{fault}");
            Err(DeskFault::BadHallFile)
        }
    }
}
