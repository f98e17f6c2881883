//! A hall's file, printed.

ghost use Rattle.std.specs.{Prelude.map, Prelude.IfErr, Prelude.OnOk, Io.KnownBytes.Keeps};
ghost use Rattle.desk_choice.specs.Printing.{FailsToPrint, PrintsHall};

use desk_requests::DeskFault;
use hall_file::{DesksStop, HallFault, MOST_BYTES, hall_of_addresses, print_hall};
use lines::{RunFault, write_text};
use std::alloc::Global;
use std::io::Write;

/// Prints the file that describes a hall whose desks listen at these addresses, desk 1 first.
/// [`hall_of_file`](crate::hall_of_file) reads the same hall from it.
///
/// # Errors
///
/// - `BadHallFile` where these are not three or five addresses, no two of them the same, or the
///   file would be too long: a line on the fault stream says why, and nothing is printed.
/// - `Run` with `Write` where a write fails, and with `NoMemory` where memory runs out.
pub fn print_hall_file<W: Write, F: Write>(
    alloc: Global,
    hall: u32,
    addresses: &[&str],
    writer: &mut W,
    faults: &mut F,
) -> Result<(), DeskFault>
    ensures ok { OnOk result (PrintsHall hall (map (λ a. a.now) addresses.now)
        (W.contents writer.old) (W.contents writer.new)) }
    ensures quiet { OnOk result (Keeps (F.contents faults.old) (F.contents faults.new)) }
    ensures err { IfErr result (λ f. FailsToPrint f hall (map (λ a. a.now) addresses.now)
        (W.contents writer.old) (W.contents writer.new)) }
{
    let file = match hall_of_addresses(alloc, hall, addresses) {
        Ok(file) => file,
        Err(DesksStop::NoMemory) => return Err(DeskFault::Run(RunFault::NoMemory)),
        Err(DesksStop::Fault(fault)) => {
            // where the line cannot be written, the status alone says what happened
            let _ = writeln!(faults, "{fault}");
            return Err(DeskFault::BadHallFile);
        }
    };
    let Ok(text) = print_hall(alloc, &file) else {
        return Err(DeskFault::Run(RunFault::NoMemory));
    };
    if text.len() > MOST_BYTES {
        let _ = writeln!(faults, "{}", HallFault::TooLong);
        return Err(DeskFault::BadHallFile);
    }
    match write_text(writer, text.as_bytes()) {
        Ok(()) => Ok(()),
        Err(_) => Err(DeskFault::Run(RunFault::Write)),
    }
}
